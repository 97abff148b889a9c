//! The range test: is another aircraft close, or will it soon be?
#![tactic(auto)]

mod range;

pub use range::{halves_by_modified_tau, range_test, range_test_law};
