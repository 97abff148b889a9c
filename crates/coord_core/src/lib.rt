//! What an aircraft advises against another one in its next cycle, and the message that it owes it.
#![tactic(auto)]

mod messages;
mod pair;
mod ranks;

pub use messages::next_message;
pub use pair::{changes_sense, ends, next_cell};
pub use ranks::rank_of;
