//! What has no effect in an encounter that is right, and what an aircraft of it can't do: a note each, by the line of
//! the file.
#![tactic(auto)]

mod aircraft;
mod fates;
mod named;
mod note;
mod noted;
mod notes;
mod rates;
mod sentence;
mod source;

pub use notes::Notes;
