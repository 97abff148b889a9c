// Expected values: by hand from "Messages" in docs/RULES.md, for copies that wait.
use super::{goes_on_for, meeting};
use acas_base::{CopyPlan, Entry, Vrc};
use air_journal::{AirState, Waiting};
use std::alloc::Global;
use std::test::Fail;
use test_encounters::{PLAIN, fate};

// Whether after this many entries the last one takes the second copy, and only the first copy waits.
fn is_held(state: &mut AirState, entries: u32) -> bool {
    if !goes_on_for(state, entries) {
        return false;
    }
    if state.enc().crafts().len() != 2 {
        return false;
    }
    let taken = Entry::Take {
        own: 1,
        send: 52,
        copy: 1,
        good: true,
    };
    let left = Waiting {
        send: 52,
        copy: 0,
        due: 28,
        reads: Some(Vrc::NotAbove),
    };
    state.entry(55) == Some(taken)
        && state.waiting(0, 1) == [left].as_slice()
        && state.waiting(1, 0).is_empty()
}

// The first message has two copies. One is taken at once, and the other one is held for two commits.
fn holds(alloc: Global) -> Result<bool, Fail> {
    let held = fate(1, 2, CopyPlan { hold: 2, mask: 0 }, PLAIN);
    let mut state = meeting(alloc, None, &[], &[held])?;
    Ok(is_held(&mut state, 56))
}

#[test]
fn holds_a_copy(rt: HostRuntime) -> Result<(), Fail> {
    assert!(rt; holds(rt.alloc())?);
    Ok(())
}
