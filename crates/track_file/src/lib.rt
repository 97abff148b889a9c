//! Recorded tracks, and the encounter whose aircraft fly along them.
#![tactic(auto)]

mod along;
mod rounding;
mod track;

pub use along::{TrackFault, are_tracks, fly_along, rounded_places};
pub use track::{Point, covers, is_track, rounded, rounding_law};
