//! A job for each number of a row of numbers, done in as many threads as there are processors. It gives what the job
//! gives of each number, in the order of the numbers. A job may count, and the counts of many be summed.
#![tactic(auto)]

mod counts;
mod running;

pub use counts::{Counts, total};
pub use running::{Job, run};
