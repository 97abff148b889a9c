//! The air of an encounter, as the rules of the journal see it, and its state: the journal so far.
//!
//! `AirState` accepts exactly the entries that the rules allow. What each call does is one relation in
//! `specs/Calls`, from the journal before it to the journal after it and the answer. Beside the journal it
//! keeps what the next entries need (`specs/Kept`), so no call reads the journal from its beginning, and
//! no call after `new` takes memory.
#![tactic(auto)]

mod answers;
mod commits;
mod crafts;
mod due;
mod entry_ref;
mod journal;
mod kept;
mod laws;
mod log;
mod next;
mod order;
mod owing;
mod pace;
mod queue;
mod rows;
mod sends;
mod state;
mod state_laws;
mod tables;
mod takes;
mod usual;

pub use answers::{Commit, Sent, Took, TookThis};
pub use crafts::{is_ra, rank};
pub use entry_ref::EntryRef;
pub use kept::Waiting;
pub use laws::{air_law, alike_law, causality_law, entries_law, shape_law, sound_law};
pub use state::AirState;
pub use state_laws::{priority_law, settled_law, worlds_law};
