//! A run that shows what is possible: one in which an aircraft has a word in a cycle, or two have equal senses for some
//! cycles in a row.
//!
//! The search for the two aircraft of each pair says where each of their states comes from. So there is a way back from
//! a state that has what is wanted. [`find`] goes back, notes how the aircraft take their turns in each round and which
//! messages are lost, and steers a run through these rounds. Whether the run has what is wanted is looked up in it at
//! the end: nothing rests on the steering. Where much is asked of one aircraft, [`Trails`] keeps what was searched.
#![tactic(auto)]

mod acting;
mod choosing;
mod finding;
mod losing;
mod origins;
mod planning;
mod searching;
mod sought;
mod steering;
mod trail;
mod trails;
mod two;

pub use finding::find;
pub use sought::Sought;
pub use trails::Trails;
