//! The judge of recordings.
#![tactic(auto)]

mod allowed;
mod asking;
mod closing;
mod compare;
mod endings;
mod entries;
mod explaining;
mod fault;
mod faulty;
mod fields;
mod here;
mod judging;
mod keys;
mod laws;
mod lines;
mod misspelled;
mod opening;
mod part;
mod picking;
mod replay;
mod sentences;
mod spelled;
mod values;
mod verdict;

pub use explaining::{Explained, explain};
pub use judging::{judge, load, load_part};
pub use laws::{allowed_law, verdict_law};
pub use verdict::{Loaded, Reason, Verdict};
