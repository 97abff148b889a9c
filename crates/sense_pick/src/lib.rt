//! The chosen sense.
#![tactic(auto)]

mod choice;

pub use choice::pick;
