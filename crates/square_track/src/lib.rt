//! The square track: what is known of the square of the horizontal range to one other aircraft.
#![tactic(auto)]

mod laws;
mod measuring;
mod square;
mod state;

pub use laws::straight_law;
pub use measuring::{MeasuredSquare, measured_square};
pub use square::SquareTrack;
pub use state::SquareState;
