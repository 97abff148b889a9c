// Expected values: by hand from "Messages" and "The journal" in docs/RULES.md. Small encounters are played by single
// calls.
mod calls;
mod slow_reader;
mod waiting;

use crate::steps::{commit, empty_journal, send, take};
use acas_base::{Fate, Leg};
use air_journal::{AirState, Commit, Sent, Took};
use std::alloc::Global;
use std::test::Fail;
use test_encounters::{aircraft, encounter, leg};

// Two aircraft that fly towards each other at one altitude. These messages of the first one are spoilt, held or lost.
fn meeting(
    alloc: Global,
    gain: Option<u16>,
    more: &[Leg],
    fates: &[Fate],
) -> Result<AirState, Fail> {
    let crafts = [
        aircraft(0x40_0A01, 0, 35_000)?,
        aircraft(0x40_0B02, 91_200, 35_000)?,
    ];
    let mut legs = [leg(0, 1, 760, 0), leg(1, 1, -760, 0)].to_vec(alloc)?;
    legs.extend_from_slice(more)?;
    let enc = encounter(alloc, 31, gain, &crafts, legs.as_slice(), &[], fates)?;
    empty_journal(alloc, &enc)
}

// Adds the next entry of the serial order of two aircraft, where there is one.
fn goes_on(state: &mut AirState) -> bool {
    if state.commits(1) < state.commits(0) {
        return matches!(commit(state, 1), Some(Commit::Done(_)));
    }
    for own in 0..2u8 {
        if let Some(Sent::Done(_)) = send(state, own) {
            return true;
        }
    }
    for own in 0..2u8 {
        if let Some(Took::Done(_, _)) = take(state, own) {
            return true;
        }
    }
    matches!(commit(state, 0), Some(Commit::Done(_)))
}

// Adds so many entries of this order.
fn goes_on_for(state: &mut AirState, entries: u32) -> bool {
    for _entry in 0..entries {
        if !goes_on(state) {
            return false;
        }
    }
    true
}

// A type that may be sent to another thread, and shared with it.
fn crosses_threads<T: Send + Sync>(_value: &T) -> bool {
    true
}
