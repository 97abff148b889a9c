//! Maximal rows of equal neighbours: which cycles of a run go together, by two tests of a cycle.
//!
//! One test says whether a cycle shows anything, the other one whether the next cycle shows the same. A row is a
//! longest row of cycles that show the same thing. The crate knows nothing of what is shown.
#![tactic(auto)]

mod laws;
mod row;

pub use laws::rows_law;
pub use row::Row;
