//! The encounter in which some aircraft follow their own advice.
//!
//! [`fly`] writes it, or says where it leaves the limits. There is at most one such encounter (`specs/Following`,
//! [`following_law`]).
#![tactic(auto)]

mod aims;
mod flying;
mod kept;
mod laws;
mod limits;
mod looks;

pub use flying::{Leaving, fly};
pub use laws::{following_law, rounding_law};
