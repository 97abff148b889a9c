//! The range track: what is known of the slant range to one other aircraft.
#![tactic(auto)]

mod range;

pub use range::RangeTrack;
