//! The altitude test: is another aircraft at nearly the same altitude, or will it soon be?
#![tactic(auto)]

mod altitude;
mod passing;

pub use altitude::{alt_test, alt_test_law, are_opposite};
pub use passing::{Approach, is_slow, passes_close};
