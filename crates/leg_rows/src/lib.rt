//! Places second by second to legs, and an aircraft's legs to its places.
#![tactic(auto)]

mod flights;
mod places;
mod rates;
mod rows;
mod starts;

pub use flights::{flights_law, fly_through, legs_of_all};
pub use places::places_of;
pub use rows::{add_legs, first_excess, legs_law};
