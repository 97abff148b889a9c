//! Strengths of an advisory: which are allowed, and how strong the next one is.
#![tactic(auto)]

mod laws;
mod next;
mod weakest;

pub use acas_base::allowed;
pub use laws::{least_law, limits_law, next_law, strongest_law};
pub use next::{choice_after, has_alim, next_strength, weakens};
pub use weakest::least;
