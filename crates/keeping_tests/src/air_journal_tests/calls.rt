// Each call with each of its answers. Expected values: by hand from "The journal" in docs/RULES.md.
use super::{crosses_threads, meeting};
use crate::steps::{commit, empty_journal, send, take};
use acas_base::{CopyPlan, Encounter};
use air_journal::{AirState, Commit, Sent, Took, TookThis};
use craft_view::is_active;
use std::alloc::Global;
use std::test::Fail;
use test_encounters::{PLAIN, aircraft, encounter, fate};

// A call of an aircraft, and what it answers.
#[derive(Clone, Copy)]
enum Step {
    Commits(u8, Commit),
    Sends(u8, Sent),
    Takes(u8, Took),
    TakesThis(u8, u32, u8, TookThis),
}

fn take_this(state: &mut AirState, own: u8, send: u32, copy: u8) -> Option<TookThis> {
    if !is_active(state.enc(), own) {
        return None;
    }
    Some(state.take_this(own, send, copy))
}

// Makes the call. Gives whether it has this answer.
fn answers(state: &mut AirState, step: Step) -> bool {
    match step {
        Step::Commits(own, answer) => commit(state, own) == Some(answer),
        Step::Sends(own, answer) => send(state, own) == Some(answer),
        Step::Takes(own, answer) => take(state, own) == Some(answer),
        Step::TakesThis(own, send, copy, answer) => {
            take_this(state, own, send, copy) == Some(answer)
        }
    }
}

// At the start nothing is owed or due. An aircraft that has committed waits for the other one.
const AT_THE_START: &[Step] = &[
    Step::Sends(0, Sent::Nothing),
    Step::Takes(0, Took::Nothing),
    Step::TakesThis(0, 0, 0, TookThis::NotDue),
    Step::Commits(0, Commit::Done(0)),
    Step::Commits(0, Commit::Ahead(1, 0)),
];

// Of two slower aircraft the one of lower index is named.
const OF_THREE: &[Step] = &[
    Step::Commits(2, Commit::Done(0)),
    Step::Commits(2, Commit::Ahead(0, 0)),
    Step::Commits(0, Commit::Done(1)),
    Step::Commits(2, Commit::Ahead(1, 0)),
    Step::Commits(0, Commit::Ahead(1, 0)),
    Step::Commits(1, Commit::Done(2)),
    Step::Commits(1, Commit::Done(3)),
];

// Both have an advisory from the second cycle on. The first message has a spoilt copy and a good one, and the run ends
// with the third cycle.
const TO_THE_END: &[Step] = &[
    Step::Commits(0, Commit::Done(0)),
    Step::Commits(1, Commit::Done(1)),
    Step::Commits(0, Commit::Done(2)),
    Step::Commits(0, Commit::Owed(1)),
    Step::Sends(0, Sent::Done(3)),
    Step::Sends(0, Sent::Nothing),
    Step::Commits(0, Commit::Ahead(1, 1)),
    Step::Commits(1, Commit::Due(3, 0)),
    Step::TakesThis(0, 3, 0, TookThis::NotDue),
    Step::TakesThis(1, 3, 2, TookThis::NotDue),
    Step::TakesThis(1, 2, 0, TookThis::NotDue),
    Step::Takes(1, Took::Done(4, false)),
    Step::Commits(1, Commit::Due(3, 1)),
    Step::TakesThis(1, 3, 1, TookThis::Done(5, true)),
    Step::TakesThis(1, 3, 1, TookThis::NotDue),
    Step::Commits(1, Commit::Done(6)),
    Step::Commits(1, Commit::Owed(0)),
    Step::Sends(1, Sent::Done(7)),
    Step::Commits(0, Commit::Due(7, 0)),
    Step::Takes(0, Took::Done(8, true)),
    Step::Commits(0, Commit::Done(9)),
    // "All cycles are over" comes before what is owed and due.
    Step::Commits(0, Commit::Over),
    Step::Sends(0, Sent::Done(10)),
    Step::Takes(1, Took::Done(11, true)),
    Step::Commits(1, Commit::Done(12)),
    Step::Sends(1, Sent::Done(13)),
    Step::Commits(0, Commit::Over),
    Step::TakesThis(0, 13, 0, TookThis::Done(14, true)),
    Step::Sends(0, Sent::Nothing),
    Step::Takes(0, Took::Nothing),
];

// The place of the first step that has another answer, or before which the journal is complete with fewer entries.
fn first_other(state: &mut AirState, steps: &[Step], entries: u32) -> Option<usize> {
    for place in 0..steps.len() {
        if state.complete() && state.count() < entries {
            return Some(place);
        }
        if !answers(state, steps[place]) {
            return Some(place);
        }
    }
    None
}

// Whether it has no entry.
fn is_empty(state: &AirState) -> bool {
    state.count() == 0 && state.entry(0).is_none()
}

// Whether the first aircraft has committed one cycle.
fn has_one_cycle(state: &AirState) -> bool {
    is_active(state.enc(), 0) && state.cells(0, 1).is_some() && state.cells(0, 2).is_none()
}

// How many entries a complete journal has.
fn whole_count(state: &AirState) -> Option<u32> {
    if state.complete() {
        Some(state.count())
    } else {
        None
    }
}

// The place of the first step that has another answer on the empty journal of an encounter, as above. Also how many
// entries the journal has then, where it is complete.
fn first_other_in(
    alloc: Global,
    enc: &Encounter,
    steps: &[Step],
    entries: u32,
) -> Result<(Option<usize>, Option<u32>), Fail> {
    let mut state = empty_journal(alloc, enc)?;
    let other = first_other(&mut state, steps, entries);
    Ok((other, whole_count(&state)))
}

// Whether a journal without entries gives these answers to the first calls, and then has the cells of one cycle.
fn answers_first(state: &mut AirState) -> bool {
    crosses_threads(state)
        && is_empty(state)
        && first_other(state, AT_THE_START, 1_000).is_none()
        && has_one_cycle(state)
}

fn answers_at_first(alloc: Global) -> Result<bool, Fail> {
    let mut state = meeting(alloc, None, &[], &[])?;
    Ok(answers_first(&mut state))
}

#[test]
fn answers_at_the_start(rt: HostRuntime) -> Result<(), Fail> {
    assert!(rt; answers_at_first(rt.alloc())?);
    Ok(())
}

// Three aircraft far from each other.
fn three(alloc: Global) -> Result<Encounter, Fail> {
    let crafts = [
        aircraft(0x40_0A01, 0, 35_000)?,
        aircraft(0x40_0B02, 91_200, 35_000)?,
        aircraft(0x40_0C03, -91_200, 35_000)?,
    ];
    encounter(alloc, 2, None, &crafts, &[], &[], &[])
}

fn first_other_of_three(
    alloc: Global,
    steps: &[Step],
    entries: u32,
) -> Result<(Option<usize>, Option<u32>), Fail> {
    let enc = three(alloc)?;
    first_other_in(alloc, &enc, steps, entries)
}

#[test]
fn names_the_first_slower(rt: HostRuntime) -> Result<(), Fail> {
    assert_eq!(rt;
        first_other_of_three(rt.alloc(), OF_THREE, 1_000)?,
        (None, None)
    );
    Ok(())
}

// Two aircraft at one place. The first message of the first one is spoilt.
fn spoiling(alloc: Global) -> Result<Encounter, Fail> {
    let crafts = [
        aircraft(0x40_0A01, 0, 35_000)?,
        aircraft(0x40_0B02, 0, 35_000)?,
    ];
    let spoilt = fate(1, 2, CopyPlan { hold: 0, mask: 7 }, PLAIN);
    encounter(alloc, 3, Some(0), &crafts, &[], &[], &[spoilt])
}

fn first_other_to_the_end(
    alloc: Global,
    steps: &[Step],
    entries: u32,
) -> Result<(Option<usize>, Option<u32>), Fail> {
    let enc = spoiling(alloc)?;
    first_other_in(alloc, &enc, steps, entries)
}

#[test]
fn answers_to_the_end(rt: HostRuntime) -> Result<(), Fail> {
    assert_eq!(rt;
        first_other_to_the_end(rt.alloc(), TO_THE_END, 14)?,
        (None, Some(15))
    );
    Ok(())
}
