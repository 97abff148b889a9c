//! The projection of an altitude under a manoeuvre.
#![tactic(auto)]

mod gained;
mod projection;

pub use projection::project;
