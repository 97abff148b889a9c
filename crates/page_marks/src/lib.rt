//! The marks of a page: places, colours, boxes of advice, words, the frame and the ticks of a panel, and what it means
//! that marks lie within bounds.
//!
//! It is what the panels of a picture have in common. It knows neither aircraft nor recordings. Where cycles stand, and
//! what their ticks are called, it asks `plot_axes`.
#![tactic(auto)]

mod frame;
mod laws;
mod paints;
mod places;
mod tick_place;
mod ticks;
mod words;

pub use frame::{put_dot, put_frame};
pub use laws::{bounds_law, ticks_law};
pub use paints::{
    Advised, amber, blue, dashed_paint, filled, grid, hatched, ink, line_paint, note, plain,
    purple, put_box, put_line, put_over, put_words, vermilion,
};
pub use places::{area_at, point_at};
pub use tick_place::TickPlace;
pub use ticks::{put_time_ticks, put_value_tick};
pub use words::{add_words, when_text};
