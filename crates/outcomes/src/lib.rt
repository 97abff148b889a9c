//! What the run of an encounter comes to, in a few numbers: who was advised what, whether senses changed or were equal,
//! and how near the nearest two aircraft came, as planned and with the modelled response. Whether the crews of two runs
//! see and hear the same. And the line for one of many runs.
#![tactic(auto)]

mod advised;
mod crews;
mod events;
mod lines;
mod nearest;
mod outcome;
mod state;
mod totals;

pub use advised::Senses;
pub use crews::{Crews, Heard};
pub use events::Event;
pub use lines::{OUTCOME_BYTES, VARIANT_BYTES, Variant, add_outcome, add_piece, add_variant};
pub use nearest::Nearest;
pub use outcome::{Outcome, outcome_of};
pub use totals::Totals;
