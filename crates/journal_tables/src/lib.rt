//! Two tables about a recording, for a spreadsheet: where each aircraft is in each cycle, and what became of each
//! message.
#![tactic(auto)]

mod altitudes;
mod fields;
mod messages;
mod places;
mod takes;

pub use messages::{Messages, write_messages};
pub use places::{Places, write_places};
