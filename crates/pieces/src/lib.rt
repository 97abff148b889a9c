//! The pieces of a text that has encounters, one after the other.
#![tactic(auto)]

mod cutting;
mod first;
mod laws;

pub use cutting::Pieces;
pub use laws::cut_law;
