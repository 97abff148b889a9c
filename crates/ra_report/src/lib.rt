//! The RA report blocks that the aircraft of a recording would have downlinked.
//!
//! A block describes an advisory against one threat in 56 bits (`ra_block`). Each commit has at most one block
//! (`specs/Blocks`). Where an advisory is over, its block is held for eighteen commits, as ended. Against two or more
//! threats at once there is no block.
#![tactic(auto)]

mod limits;
mod lines;
mod story;
mod table;

pub use lines::{Reports, write};
