//! The seconds that the tests of an advisory need: each test holds exactly where its seconds are within tau.
//!
//! [`pair_seconds`] says which tracks and which thresholds the tests of a pair take.
#![tactic(auto)]

mod pair;
mod seconds;

pub use pair::{PairSeconds, TestSeconds, height_of, height_rate_of, pair_seconds};
pub use seconds::{altitude_seconds, range_seconds, test_law};
