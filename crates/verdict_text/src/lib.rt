//! What is wrong with a recording, in a sentence.
//!
//! A fault is a value: the line, and why it can't stand there. `rec_audit` finds it, and asks this crate why an entry
//! isn't allowed after a journal, and what a journal lacks.
#![tactic(auto)]

mod causes;
mod commits;
mod fault;
mod forms;
mod hindrances;
mod incomplete;
mod pieces;
mod sends;
mod sentence;
mod spelling;
mod takes;
mod wanted;

pub use causes::{CommitCause, Lack, SendCause, TakeCause};
pub use commits::commit_cause;
pub use fault::{Fault, Found, Why};
pub use incomplete::lack;
pub use sends::send_cause;
pub use spelling::{EntryField, EntryKind};
pub use takes::take_cause;
pub use wanted::{WANTED_BYTES, Wanted};
