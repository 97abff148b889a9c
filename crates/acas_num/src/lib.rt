//! Whole-number arithmetic that several crates share, and the track of a measured quantity.
#![tactic(auto)]

mod division;
mod ends;
mod limits;
mod track;
mod whole_root;

pub use division::{floor_div, seconds_law};
pub use ends::clamp;
pub use limits::Limits;
pub use track::{TrackState, track_law};
pub use whole_root::{root, root_law};
