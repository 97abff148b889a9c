// Expected values: by hand from docs/RULES.md, for whole runs of small encounters.
mod orders;

use crate::steps::empty_journal;
use acas_base::{Cell, CopyPlan, Encounter, Sense};
use air_journal::AirState;
use craft_worker::serial;
use std::alloc::Global;
use std::test::Fail;
use test_encounters::{PLAIN, aircraft, encounter, fate, leg, miss};

// Two aircraft that fly towards each other at one altitude.
fn meeting(alloc: Global) -> Result<Encounter, Fail> {
    let crafts = [
        aircraft(0x40_0A01, 0, 35_000)?,
        aircraft(0x40_0B02, 91_200, 35_000)?,
    ];
    let legs = [leg(0, 1, 760, 0), leg(1, 1, -760, 0)];
    encounter(alloc, 31, None, &crafts, &legs, &[], &[])
}

// The same two. The second one climbs in the end. One copy of the first one's second message comes late, and its fifth
// message is lost.
fn climbing(alloc: Global) -> Result<Encounter, Fail> {
    let crafts = [
        aircraft(0x40_0A01, 0, 35_000)?,
        aircraft(0x40_0B02, 91_200, 35_000)?,
    ];
    let legs = [
        leg(0, 1, 760, 0),
        leg(1, 1, -760, 0),
        leg(1, 27, -760, 6_000),
    ];
    let late = CopyPlan { hold: 3, mask: 0 };
    let fates = [fate(2, 2, PLAIN, late), fate(5, 0, PLAIN, PLAIN)];
    encounter(alloc, 31, Some(1024), &crafts, &legs, &[], &fates)
}

// An aircraft between two others.
fn between(alloc: Global) -> Result<Encounter, Fail> {
    let crafts = [
        aircraft(0x40_0A01, 45_600, 34_700)?,
        aircraft(0x40_0B02, -45_600, 35_300)?,
        aircraft(0x40_0C03, 0, 35_000)?,
    ];
    let legs = [leg(0, 1, -760, 0), leg(1, 1, 760, 0)];
    encounter(alloc, 25, Some(1024), &crafts, &legs, &[], &[])
}

// The first one loses sight of the second one soon after its advisory, and its cancel is lost.
fn lapsing(alloc: Global) -> Result<Encounter, Fail> {
    let crafts = [
        aircraft(0x40_0A01, 0, 35_000)?,
        aircraft(0x40_0B02, 91_200, 35_000)?,
    ];
    let legs = [leg(0, 1, 760, 0), leg(1, 1, -760, 0)];
    let misses = [miss(0, 1, 22, 60), miss(1, 0, 1, 31)];
    let fates = [fate(2, 0, PLAIN, PLAIN)];
    encounter(alloc, 33, None, &crafts, &legs, &misses, &fates)
}

// The sense of an aircraft's advisory against another one in a cycle, if it has one.
fn sense_in(state: &AirState, own: u8, other: usize, cycle: u16) -> Option<Sense> {
    let cells = state.cells(own, cycle)?;
    match cells.list.get(other) {
        Some(Cell::Ra(intent)) => Some(intent.sense),
        _ => None,
    }
}

// A cycle, and the senses of both aircraft in it.
type Senses = (u16, Option<Sense>, Option<Sense>);

const SENSES: &[Senses] = &[
    (25, None, None),
    (26, Some(Sense::Up), Some(Sense::Up)),
    (27, Some(Sense::Up), Some(Sense::Down)),
    (31, Some(Sense::Up), Some(Sense::Down)),
];

// The first cycle in which the senses of both are others.
fn first_other(state: &AirState, senses: &[Senses]) -> Option<u16> {
    for place in 0..senses.len() {
        let (cycle, low, high) = senses[place];
        if sense_in(state, 0, 1, cycle) != low || sense_in(state, 1, 0, cycle) != high {
            return Some(cycle);
        }
    }
    None
}

// Whether a complete journal has so many entries and these senses.
fn is_right(state: &AirState, entries: u32, senses: &[Senses]) -> bool {
    state.count() == entries && state.complete() && first_other(state, senses).is_none()
}

// The same of the serial run of an encounter.
fn is_played_in(
    alloc: Global,
    enc: &Encounter,
    entries: u32,
    senses: &[Senses],
) -> Result<bool, Fail> {
    let mut state = empty_journal(alloc, enc)?;
    serial(&mut state, enc);
    Ok(is_right(&state, entries, senses))
}

// The same of two aircraft at one altitude.
fn is_played(alloc: Global, entries: u32, senses: &[Senses]) -> Result<bool, Fail> {
    let enc = meeting(alloc)?;
    is_played_in(alloc, &enc, entries, senses)
}

// Both choose to climb, and the one of higher address descends after it has taken the other one's message.
#[test]
fn higher_address_gives_way(rt: HostRuntime) -> Result<(), Fail> {
    assert!(rt; is_played(rt.alloc(), 86, SENSES)?);
    Ok(())
}
