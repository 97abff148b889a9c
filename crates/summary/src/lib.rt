//! The page about a recording that is read first: who met whom, how near, who was advised what from when to when, and
//! what began each advisory.
#![tactic(auto)]

mod above;
mod approach;
mod blocks;
mod equal;
mod fields;
mod head;
mod laws;
mod notes;
mod page;
mod rows;
mod standing;
mod stretches;
mod summary;
mod told;

pub use laws::{order_law, stretches_law, turns_law};
pub use summary::{Summary, write};
