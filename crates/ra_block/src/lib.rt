//! The RA report block: what an aircraft tells of an advisory against one threat, in a word of 56 bits.
//!
//! Its layout is this project's own, modelled on the register BDS 3,0, and nobody claims that a reader of that register
//! takes it. Which blocks the aircraft of a recording would have downlinked isn't known here.
#![tactic(auto)]

mod block;

pub use block::{RaBlock, decode, encode, read_law};
