//! The recording of a state of the air: the canonical text of its encounter, the line of each entry of its journal, and
//! the report of what the crews hear. It says what the journal says, and judges nothing.
#![tactic(auto)]

mod counts;
mod entries;
mod laws;
mod recording;
mod report;

pub use counts::{EntryCounts, entry_counts};
pub use entries::set_entry_line;
pub use laws::{line_law, text_law};
pub use recording::{Closing, Recording, write};
pub use report::report_count;
