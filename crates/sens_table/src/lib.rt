//! Sensitivity levels: the thresholds of advisories by own altitude.
#![tactic(auto)]

mod above;
mod levels;
mod run;

pub use above::{Above, level_law};
pub use run::level_in;
