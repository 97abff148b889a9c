//! The words of a command line that say what is changed in an encounter, and over which values.
#![tactic(auto)]

mod variation;
mod words;

pub use variation::Variation;
pub use words::{of_five, of_one};
