//! Reversals: when an advisory has to change its sense.
#![tactic(auto)]

mod geometric;

pub use geometric::{has_to_reverse, is_chase, turns};
