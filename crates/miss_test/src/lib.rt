//! The horizontal miss distance: does another aircraft get farther away, and does it pass far away?
#![tactic(auto)]

mod miss;

pub use miss::{grows, is_far, miss_law, opens};
