//! A journal read once, from its beginning, and what it says up to the entry that comes next.
//!
//! What a tool writes about a commit depends on what was in force before it: the complements, the last cells, the runs.
//! A `Reader` goes through the journal of an `AirState` entry by entry, and keeps these for each aircraft against each
//! other one. So no tool looks back. What a `Reader` gives is what the rules of the journal say of the entries so far.
//! It takes no memory.
#![tactic(auto)]

mod links;
mod reader;
mod taking;

pub use links::GoodTake;
pub use reader::Reader;
