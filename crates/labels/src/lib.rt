//! The labels of a picture, as the words of a command line say them: the clock, names of aircraft, and marks.
//!
//! In this order: `TIME`, hh:mm:ss, the time of day in cycle 1; any number of `ADDRESS=NAME`; and up to 26 marks,
//! `CYCLE=TEXT` or, where there is a clock, `hh:mm:ss=TEXT`. A word is a time of day where it is the text that
//! `plot_axes` writes of one. The crate knows nothing of drawings.
#![tactic(auto)]

mod clock;
mod labels;
mod parts;
mod split;

pub use labels::{Labels, MOST_MARKS, MOST_WORDS};
pub use parts::{MARK_BYTES, NAME_BYTES};
