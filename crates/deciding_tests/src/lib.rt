//! Tests of the public calls of the crates of the floor deciding. The floor rules has laws alone.
#![tactic(auto)]

#[cfg(test)]
mod coord_core_tests;
#[cfg(test)]
mod res_message_tests;
#[cfg(test)]
mod reversal_tests;
#[cfg(test)]
mod sense_pick_tests;
#[cfg(test)]
mod strength_pick_tests;
#[cfg(test)]
mod threat;
