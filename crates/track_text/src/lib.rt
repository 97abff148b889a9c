//! The text of recorded tracks: read from bytes to the encounter whose aircraft fly along them, or to why there is
//! none.
#![tactic(auto)]

mod against;
mod kinds;
mod laws;
mod reading;
mod record;
mod refusal;
mod saying;
mod tables;
mod telling;
mod told;
mod why;

pub use laws::{once_law, only_law};
pub use reading::read;
pub use record::TrackRecord;
pub use refusal::{Fault, ReadError, Refusal};
pub use told::explained;
