//! The altitude track: what is known of an aircraft's own altitude, or of another one's.
#![tactic(auto)]

mod altitude;

pub use altitude::AltTrack;
