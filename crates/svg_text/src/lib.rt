//! Drawings as SVG, a mark at a time.
//!
//! A drawing is a head, and sections of marks: shapes, lines through points, and words. A mark may have a title, which a
//! browser shows under the pointer. This crate alone knows how these are written: the text is well formed whatever the
//! numbers, the titles and the words are (`form_law`). It knows nothing of what is drawn.
//!
//! All numbers are whole, in units of the view box. A long line through points is written point by point, so no mark
//! takes memory by its length.
#![tactic(auto)]

mod attributes;
mod document;
mod drawing;
mod escaped;
mod fitting;
mod laws;
mod names;
mod shapes;

pub use document::{Frame, begin_drawing, begin_section, end_drawing, end_section};
pub use drawing::{Drawing, LABEL_BYTES};
pub use laws::form_law;
pub use shapes::{
    Anchor, Area, Clip, Color, Dash, Fill, Lettering, Outline, Paint, Point, Shape, Stroke, Turn,
    Weight,
};
