//! Encounters that are generated. The number of one decides all of it.
#![tactic(auto)]

mod crafts;
mod draws;
mod fates;
mod making;
mod misses;

pub use making::{made_law, make};
