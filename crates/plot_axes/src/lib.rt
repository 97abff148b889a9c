//! The axes of plots: where a value stands along an axis, where its ticks are, and what stands under a tick of time.
//!
//! All numbers are whole. There is one map from values to places, [`Scale::along`], and `scale_law` says what it keeps.
//! A step of ticks is the least of a list that fits. What the values mean is known to the callers. A time of day is
//! written by [`clock_text`].
#![tactic(auto)]

mod clock;
mod laws;
mod scale;
mod steps;
mod time;

pub use clock::clock_text;
pub use laws::{scale_law, step_law, time_law};
pub use scale::Scale;
pub use steps::least_step;
pub use time::{TIME_BEGIN, TIME_LENGTH, TimeAxis};
