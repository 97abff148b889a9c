//! Where the aircraft of an encounter are, and what they measure of each other.
#![tactic(auto)]

mod approach;
mod course;
mod flying;
mod measuring;
mod misses;
mod place;
mod places;
mod ranges;

pub use approach::{ClosestApproach, closest_approach, range_between};
pub use flying::{inside, inside_law, position};
pub use measuring::{Meas, measure, own_altitude, slant_range, slant_range_law};
pub use misses::is_missed;
pub use place::Place;
pub use places::Places;
