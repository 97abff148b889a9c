//! Parts of small encounters, and encounters of them, for the tests of several crates. No crate of the program stands
//! on this one.
#![tactic(auto)]

mod encounters;

pub use encounters::{PLAIN, aircraft, any_encounter, encounter, fate, leg, miss};
