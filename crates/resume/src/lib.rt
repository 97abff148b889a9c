//! A journal that was begun goes on to its end.
//!
//! `fill` adds the entry that comes next in the serial order, where that is allowed; else the first owed message; else
//! the first due copy (`specs/Filling`). In the end the journal is legal and complete.
#![tactic(auto)]

mod filling;
mod looks;
mod rounds;
mod steps;

pub use filling::{fill, filled_law};
