//! The words of resolution messages.
#![tactic(auto)]

mod laws;
mod words;

pub use acas_base::ResMsg;
pub use laws::{distance_law, once_law, read_law, spoilt_law};
pub use words::{decode, encode, flip};
