//! How the aircraft of a complete journal would have flown with the modelled response to their advisories, and how near
//! each two of which one has an advisory against the other would have come. It isn't fed back into the run, and
//! promises no separation.
#![tactic(auto)]

mod advice;
mod approach;
mod flier;
mod flying;
mod modelled;
mod motion;
mod pairs;
mod response;

pub use approach::{flown_apart, planned_apart};
pub use flier::altitude_units;
pub use flying::flown;
pub use modelled::ModelledFlight;
pub use pairs::ever_advises_against;
pub use response::{Response, write};
