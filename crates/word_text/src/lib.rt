//! What a word of 56 bits says, as text: a message of the coordination, or an RA report block.
//!
//! Bit 41 tells which of the two a word is. What the bits mean is known to `res_message` and `ra_block`, which read the
//! word; only the names of the fields are this crate's own.
#![tactic(auto)]

mod digits;
mod laws;
mod lines;

pub use digits::parse;
pub use laws::told_law;
pub use lines::{WordText, write};
