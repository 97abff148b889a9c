//! A drawing of a recording as SVG: how high each aircraft flew, which advisories each one showed, and when.
//!
//! It has a head, an axis of time, a line for the altitude of each aircraft, a dotted one where it would have flown
//! otherwise with the modelled response, a lane for each aircraft that advises with
//! a bar for each of its rows of cycles, a legend, and the marks of the labels. The bars are exactly the longest rows
//! of cycles with one word and one corrective mark (`bars_law`). Between the lanes stands an arrow for each take of a
//! message that changes the complement in force (`arrows_law`), a cross for each maximal row of lost messages of two
//! aircraft, and a hollow head for each one of spoilt messages (`mishaps_law`). The axis of altitudes holds them all
//! (`courses_law`). The marks of the labels are those whose cycle is one of the run (`marks_law`). The text is well
//! formed, and everything lies within its page (`sound_law`).
#![tactic(auto)]

mod altitude;
mod bands;
mod bar;
mod bars;
mod call;
mod calls;
mod course;
mod gathered;
mod head;
mod heard;
mod heard_laws;
mod heights;
mod lanes;
mod laws;
mod layout;
mod legend;
mod marked;
mod marked_drawn;
mod messages;
mod messages_drawn;
mod messages_read;
mod mishaps;
mod mishaps_drawn;
mod modelled;
mod onsets;
mod panels;
mod picture;
mod shown;
mod side;
mod span;
mod time;

pub use heard_laws::heard_law;
pub use laws::{arrows_law, bars_law, courses_law, marks_law, mishaps_law, sound_law};
pub use picture::{Picture, write};
