//! The words of the report as values: what the cells of an aircraft say in a cycle, and what several say together. And
//! what a run is wanted for: a word of an aircraft, or equal senses of two.
#![tactic(auto)]

mod wanted;
mod word;

pub use wanted::{Wanted, of_three};
pub use word::{ALL_WORDS, WORDS, Word};
