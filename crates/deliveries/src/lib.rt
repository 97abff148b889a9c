//! What became of the messages of a journal, and which replies the encounter plans to be missed: the end of a summary.
//!
//! A message can be lost, spoilt, held back, repeated, or not taken by the end (`specs/Mishaps`). Which numbers of a
//! sender and a receiver something befalls is told as maximal rows (`specs/Rows`).
#![tactic(auto)]

mod counts;
mod deliveries;
mod laws;
mod lines;
mod mishap;
mod misses;
mod noting;
mod row_text;
mod rows;
mod takes;

pub use counts::Counts;
pub use deliveries::Deliveries;
pub use laws::{numbers_law, rows_law};
pub use lines::write;
pub use mishap::Mishap;
pub use misses::missed;
pub use rows::{Numbers, Row};
