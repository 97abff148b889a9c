// Expected values: by hand from "Flight and measurement" in docs/RULES.md.
use acas_base::{CraftSpec, Encounter, Kind, Leg, Miss};
use flight::{Meas, Place, inside, measure, own_altitude, position};
use std::alloc::Global;
use std::test::Fail;
use test_encounters::{aircraft, any_encounter, leg, miss};

// An encounter of an aircraft at x = 0 and of a transponder, both at altitudes in ft.
fn pair(
    alloc: Global,
    low: i32,
    x: i32,
    high: i32,
    legs: &[Leg],
    misses: &[Miss],
) -> Result<Encounter, Fail> {
    let first = aircraft(0x40_0A01, 0, low)?;
    let second = CraftSpec {
        kind: Kind::Xpdr,
        ..aircraft(0x40_0B02, x, high)?
    };
    any_encounter(alloc, 31, None, &[first, second], legs, misses, &[])
}

// What one of the two measures of the other one in a cycle of the run.
fn measured(enc: &Encounter, own: u8, target: u8, cycle: u16) -> Option<Meas> {
    let count = enc.crafts().len();
    if usize::from(own) >= count || usize::from(target) >= count || cycle == 0 || cycle > 31 {
        return None;
    }
    measure(enc, own, target, cycle)
}

// Own aircraft, the other one, a cycle, and what is measured in it: range and altitude.
type Row = (u8, u8, u16, Option<(u32, i32)>);

// The place of the first row with another measurement.
fn first_other(enc: &Encounter, rows: &[Row]) -> Option<usize> {
    for place in 0..rows.len() {
        let (own, target, cycle, wanted) = rows[place];
        let found = measured(enc, own, target, cycle);
        if found != wanted.map(|(range, alt)| Meas { range, alt }) {
            return Some(place);
        }
    }
    None
}

const MEETING: &[Row] = &[
    (0, 1, 1, Some((91_200, 35_300))),
    (0, 1, 13, Some((72_960, 35_300))),
    (1, 0, 26, Some((53_200, 35_000))),
    (1, 0, 31, Some((45_600, 35_000))),
];

// Missed from cycle 5 to 7, and beyond 30 nautical miles from cycle 9 on.
const FAR: &[Row] = &[
    (0, 1, 4, Some((182_280, 0))),
    (0, 1, 5, None),
    (0, 1, 7, None),
    (1, 0, 7, Some((182_280, 0))),
    (0, 1, 8, Some((182_280, 0))),
    (0, 1, 9, None),
];

const LOW: &[Row] = &[(0, 1, 16, Some((6_000, 1_100)))];

// The first row with another measurement: of two that meet, of two far from each other, and of two near the ground.
fn other_of_meeting(alloc: Global) -> Result<Option<usize>, Fail> {
    let legs = [leg(0, 1, 760, 0), leg(1, 1, -760, 0)];
    let enc = pair(alloc, 35_000, 91_200, 35_300, &legs, &[])?;
    Ok(first_other(&enc, MEETING))
}

fn other_of_far(alloc: Global) -> Result<Option<usize>, Fail> {
    let enc = pair(
        alloc,
        0,
        182_280,
        0,
        &[leg(1, 8, 1, 0)],
        &[miss(0, 1, 5, 7)],
    )?;
    Ok(first_other(&enc, FAR))
}

fn other_of_low(alloc: Global) -> Result<Option<usize>, Fail> {
    let legs = [leg(0, 1, 200, 0), leg(1, 1, -200, 0)];
    let enc = pair(alloc, 1_099, 12_000, 1_099, &legs, &[])?;
    Ok(first_other(&enc, LOW))
}

#[test]
fn measures_and_misses(rt: HostRuntime) -> Result<(), Fail> {
    assert_eq!(rt; other_of_meeting(rt.alloc())?, None);
    assert_eq!(rt; other_of_far(rt.alloc())?, None);
    assert_eq!(rt; other_of_low(rt.alloc())?, None);
    Ok(())
}

// The place of an aircraft in a cycle, and its altitude in feet.
fn stands(enc: &Encounter, craft: u8, cycle: u16) -> Option<(Place, i32)> {
    if usize::from(craft) >= enc.crafts().len() || cycle == 0 || cycle > 31 {
        return None;
    }
    Some((position(enc, craft, cycle), own_altitude(enc, craft, cycle)))
}

// The place of the first row where the aircraft of this index is somewhere else. A row has a cycle, x in ft, z in 1/60
// ft, and the altitude in feet.
fn first_elsewhere(enc: &Encounter, craft: u8, rows: &[(u16, i64, i64, i32)]) -> Option<usize> {
    for place in 0..rows.len() {
        let (cycle, x, z, feet) = rows[place];
        if stands(enc, craft, cycle) != Some((Place { x, y: 0, z }, feet)) {
            return Some(place);
        }
    }
    None
}

const FLOWN: &[(u16, i64, i64, i32)] = &[
    (1, 0, 60_000, 1_000),
    (2, 0, 60_000, 1_000),
    (3, 5, 60_000, 1_000),
    (4, 10, 60_000, 1_000),
    (6, -4, 60_120, 1_002),
];

#[test]
fn moves_by_the_leg_of_the_cycle_left(rt: HostRuntime) -> Result<(), Fail> {
    let alloc = rt.alloc();
    let legs = [leg(0, 2, 5, 0), leg(0, 4, -7, 60), leg(1, 1, 100, 0)];
    let flown = pair(alloc, 1_000, 0, 0, &legs, &[])?;
    assert_eq!(rt; first_elsewhere(&flown, 0, FLOWN), None);
    // A sixtieth of a foot below zero is a foot below.
    let sinking = pair(alloc, 0, 0, 0, &[leg(1, 1, 0, -1)], &[])?;
    assert_eq!(rt; first_elsewhere(&sinking, 1, &[(2, 0, -1, -1)]), None);
    Ok(())
}

// Whether both of a pair stay in the box. The second aircraft starts here.
fn stays(alloc: Global, low: i32, x: i32, high: i32, legs: &[Leg]) -> Result<bool, Fail> {
    Ok(inside(&pair(alloc, low, x, high, legs, &[])?))
}

#[test]
fn asks_for_the_box_in_every_cycle(rt: HostRuntime) -> Result<(), Fail> {
    let alloc = rt.alloc();
    let touches = [leg(1, 1, 1_000, 0), leg(1, 2, -1_000, 0)];
    assert!(rt; stays(alloc, -1_000, 999_000, 60_000, &touches)?);
    // Outside in cycle 2 alone.
    let leaves = [leg(1, 1, 1_001, 0), leg(1, 2, -1_001, 0)];
    assert!(rt; !stays(alloc, 0, 999_000, 0, &leaves)?);
    // A sixtieth of a foot too high, in the last cycle alone; and past the run.
    assert!(rt; !stays(alloc, 0, 0, 60_000, &[leg(1, 30, 0, 1)])?);
    assert!(rt; stays(alloc, 0, 0, 60_000, &[leg(1, 31, 0, 1)])?);
    Ok(())
}
