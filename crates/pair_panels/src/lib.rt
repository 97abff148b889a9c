//! Panels of the two aircraft that come nearest: how far they are apart in each cycle, as planned.
//!
//! [`nearest_pair`] finds them. [`put_distance`] draws their slant range or their vertical distance against time, with
//! the closest approach. It draws below a top that its caller gives, and `distance_law` says that all its marks lie in
//! its part of the page, and where the distances stand. [`put_headline`] tells of the closest approach in a line.
#![tactic(auto)]

mod distance;
mod headline;
mod laws;
mod nearest;
mod panel;
mod texts;
mod ticks;

pub use distance::Distance;
pub use headline::put_headline;
pub use laws::{distance_law, nearest_law};
pub use nearest::{NearPair, nearest_pair};
pub use panel::{PANEL_HEIGHT, put_distance};
