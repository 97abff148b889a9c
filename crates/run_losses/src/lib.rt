//! The losses of messages of a run: each of its messages that has a copy lost by itself, and then the first messages
//! from an aircraft to another one lost, up to each number.
#![tactic(auto)]

mod links;
mod rows;
mod sent;

pub use rows::losses;
