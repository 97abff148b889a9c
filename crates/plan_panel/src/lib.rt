//! The plan: the aircraft as planned, seen from above, north up, with one scale for both directions.
//!
//! [`put_plan`] draws a line through the places of each aircraft, dots at the ticks of time, its start, its name at its
//! end, where two aircraft are nearest, and a scale. It draws below a top that its caller gives, and `plan_law` says
//! where places stand, and that all marks lie in the panel's part of the page.
#![tactic(auto)]

mod chart;
mod extent;
mod flights;
mod laws;
mod names;
mod panel;
mod scale_bar;
mod texts;
mod view;

pub use flights::dash_of;
pub use laws::plan_law;
pub use panel::{Approach, PLAN_HEIGHT, put_plan};
