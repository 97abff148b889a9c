//! Texts as lines: what makes the lines, and what takes them one after the other.
#![tactic(auto)]

mod batch;
mod counting;
mod lines;
mod plain;
mod split;
mod writer;

pub use counting::count_lines;
pub use lines::{LineSink, Text};
pub use plain::{count_line, fixed_line};
pub use split::{first_line_len, split_law};
pub use writer::write_text;
