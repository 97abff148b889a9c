//! The rules of the journal over any air, and the laws of every legal journal.
//!
//! A journal lists what the aircraft of an encounter do: they commit cycles, send messages and take copies of messages.
//! `specs/Rules` says which entry may come next. The laws say what then holds, in whatever order the entries stand. An
//! `Air` has aircraft, views, copies and words. The laws rest on a few facts about these alone (`IsSound`). Each law is
//! a function without effect, whose contract states it. A caller knows the law after the call.
#![tactic(auto)]

mod coordination;
mod example;
mod own;
mod progress;

pub use coordination::{priority_law, safe_law, settled_law, shape_law, worlds_law};
pub use example::{example_law, three_aircraft_law};
pub use own::own_law;
pub use progress::{beginning_law, causality_law, length_law, onward_law, serial_law};
