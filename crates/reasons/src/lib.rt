//! The reasons of the cells of a state of the air: one line for each commit and each other aircraft, with what was
//! measured and tracked, what the tests needed, what the senses would have given, which message was in force, and by
//! which rule the cell followed.
#![tactic(auto)]

mod columns;
mod commits;
mod laws;
mod reason;
mod rules;
mod seen;
mod shown;
mod tenths;
mod text;
mod told;

pub use laws::{
    columns_law, heard_law, message_law, on_board_law, reason_law, rule_law, seen_law, unique_law,
};
pub use rules::{Rule, rule_of};
pub use text::{Reasons, write};
