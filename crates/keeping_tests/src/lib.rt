//! Tests of the public calls of the crates of the floor keeping.
#![tactic(auto)]

#[cfg(test)]
mod air_journal_tests;
#[cfg(test)]
mod air_turn_tests;
#[cfg(test)]
mod craft_worker_tests;
#[cfg(test)]
mod steps;
