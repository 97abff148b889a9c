//! Words of a command line that name aircraft by their addresses, and the aircraft of an encounter that they name.
#![tactic(auto)]

mod among;
mod naming;
mod words;

pub use among::Among;
pub use naming::{first_unknown, index_of, indices};
pub use words::are_addresses;
