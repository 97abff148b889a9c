//! What an aircraft's crew hears, and the lines of the report: the composite advisory of a cycle, the phrase from one
//! composite to the next, and the line with both. The crate also has the text of one cell, which is what an aircraft
//! advises against one other aircraft, and the words of a sense and of a complement.
#![tactic(auto)]

mod aural;
mod cells;
mod composite;
mod report;
mod stretches;
mod words;

pub use aural::{Aural, aural_of, has_advice, phrase};
pub use cells::{CELL_BYTES, add_cell, sense_letter, strength_digit};
pub use composite::{Composite, composite_of, shown, word};
pub use report::{is_quiet, line};
pub use stretches::{Stretch, has_same_word};
pub use words::{complement_text, sense_text};
