//! Each interval in which two coordinating aircraft had equal senses, and its cause.
//!
//! Of two aircraft that coordinate, the one of the higher address gives way. While it hasn't taken a message of the
//! other one's present sense, the two senses may be equal. `specs/Watching` says which commits are such an interval,
//! why it began, and which message told of it next. So a recording is searched whole: none is missed, and none is
//! invented.
#![tactic(auto)]

mod intervals;
mod laws;
mod lines;
mod pair;
mod rows;

pub use laws::{intervals_law, lapsed_law};
pub use lines::{Watch, write};
