//! What differs between two recordings, wherever their entries stand.
//!
//! The encounters are compared by their texts, the cells by cycle and aircraft, the reports commit by commit, and the
//! messages by sender, receiver and number. So two orders of entries of one run are told apart only where something
//! else differs.
#![tactic(auto)]

mod alike;
mod cells;
mod encounters;
mod finding;
mod laws;
mod lines;
mod messages;
mod picking;
mod places;
mod reports;
mod sides;
mod splitting;

pub use cells::CellPlace;
pub use finding::{Found, RunFound, compare};
pub use laws::{equal_law, split_law};
pub use lines::{Comparison, write};
pub use splitting::{Recordings, split};
