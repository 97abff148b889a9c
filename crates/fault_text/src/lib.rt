//! What is wrong with a text that is refused, in a sentence.
#![tactic(auto)]

mod against;
mod before;
mod earlier;
mod fault;
mod faultless;
mod fields;
mod hints;
mod leaving;
mod leaving_text;
mod lines;
mod names;
mod outside;
mod search;
mod sentence;
mod shown;

pub use against::{end_why, repeat_why, stranger, unknown_why};
pub use earlier::{LineTest, last_before};
pub use fault::{Fault, Why, explain, explained, field_why};
pub use faultless::faultless_line;
pub use fields::{count, field, kind_of};
pub use hints::number_hint;
pub use leaving::Axis;
pub use lines::{
    FileLines, Place, begins_recording, begins_tracks, cut, place_of, records_law, unmarked,
};
pub use names::{FieldName, RecordKind};
pub use search::leftmost;
pub use sentence::{add_field_count, add_why};
pub use shown::{SHOWN_BYTES, add_shown, shown_law};
