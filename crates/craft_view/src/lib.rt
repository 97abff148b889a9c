//! What an aircraft sees of the others: the tracks that it keeps of them, and a picture each second.
#![tactic(auto)]

mod craft;
mod hits;
mod laws;
mod motion;
mod others;
mod own;
mod pair;
mod profile_two;
mod separations;
mod surveillance;
mod tracks;

pub use craft::Craft;
pub use laws::{sight_law, view_law};
pub use motion::{Estimate, Motion};
pub use own::{OwnAircraft, is_active};
pub use pair::no_picture;
pub use separations::{FIRST_RESPONSE, LATER_RESPONSE, Response, asked_rate};
pub use surveillance::Surveillance;
