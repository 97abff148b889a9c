//! A panel of the seconds that the tests of an aircraft against another one need, cycle by cycle, beside tau: why an
//! advisory comes in one cycle and not before.
//!
//! [`own_of`] says which of two aircraft is own aircraft. [`put_seconds`] draws three lines: the seconds that the range
//! test of a traffic advisory needs, and those that the range test and the altitude test of a resolution advisory need;
//! and, broken into dashes, tau of both. A line has a gap where there is no such number. The seconds come from
//! `test_seconds`, by what the tracks of `craft_view` say. `seconds_law` says where the points stand, and that all marks
//! lie in the panel's part of the page, below a top that the caller gives.
#![tactic(auto)]

mod laws;
mod lines;
mod own;
mod panel;
mod rows;
mod seconds;
mod series;
mod texts;

pub use laws::seconds_law;
pub use own::{TestedPair, own_of};
pub use panel::{PANEL_HEIGHT, put_seconds};
