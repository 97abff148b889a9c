// The two aircraft that come nearest, as planned.
ghost use Rattle.std.specs.Prelude.{◌≡◌, ◌+◌, ◌<◌, ◌≤◌, ◌^◌, length, MatchOption};
ghost use Rattle.acas_base.specs.Ranges.{IsCycle};
ghost use Rattle.flight.specs.Approach.{range_between};
ghost use Rattle.outcomes.specs.Nearest.{IsApproach, IsFoundBelow, IsNearest, IsNearestApproach, nearer, place_of_pair};

use crate::state::crafts;
use acas_base::{Address, Encounter};
use air_journal::AirState;
use flight::{closest_approach, position, slant_range};
use response::{flown_apart, planned_apart};

/// The two aircraft that come nearest, as planned; of those that come as near, the first ones by their indices.
#[derive(Clone, Copy)]
pub struct Nearest {
    /// Their lower index.
    pub low: u8,
    /// Their higher index.
    pub high: u8,
    /// The address of the aircraft of lower index.
    pub one: Address,
    /// The address of the other one.
    pub other: Address,
    /// The first cycle in which their slant range is least.
    pub cycle: u16,
    /// Their slant range in that cycle, as planned, in ft and rounded down.
    pub slant: u32,
    /// How far their planned altitudes are apart in that cycle, in ft and rounded down.
    pub planned: u32,
    /// How far their altitudes are apart in it with the modelled response, in ft and rounded down.
    pub flown: u32,
}

// Two aircraft, the first cycle of their least slant range, and that range in ft.
#[derive(Clone, Copy)]
pub(crate) struct Approach {
    pub low: u8,
    pub high: u8,
    pub cycle: u16,
    pub range: u64,
}

fn approach_of(encounter: &Encounter, a: u8, b: u8) -> Approach
    requires a { a < length encounter.now.crafts }
    requires b { b < length encounter.now.crafts }
    ensures low { result.low ≡ a }
    ensures high { result.high ≡ b }
    ensures is { IsApproach encounter.now result }
{
    let closest = closest_approach(encounter, a, b);
    Approach {
        low: a,
        high: b,
        cycle: closest.cycle,
        range: closest.range,
    }
}

fn nearer(found: Approach, next: Approach) -> Approach
    ensures { result ≡ nearer found next }
{
    if next.range < found.range {
        next
    } else {
        found
    }
}

// What is found with one pair more.
fn found_with(encounter: &Encounter, found: Option<Approach>, a: u8, b: u8) -> Option<Approach>
    requires lower { a < b }
    requires higher { b < length encounter.now.crafts }
    requires found { IsFoundBelow encounter.now (place_of_pair a b) found }
    ensures { IsFoundBelow encounter.now (place_of_pair a b + 1) result }
{
    encounter.valid_law();
    let next = approach_of(encounter, a, b);
    match found {
        Some(found) => Some(nearer(found, next)),
        None => Some(next),
    }
}

// What is found with the pairs of an aircraft with those of higher index.
fn found_with_all(
    encounter: &Encounter,
    found: Option<Approach>,
    a: u8,
    crafts: u8,
) -> Option<Approach>
    requires a { a < crafts }
    requires crafts { crafts ≡ length encounter.now.crafts }
    requires few { crafts ≤ 16 }
    requires found { IsFoundBelow encounter.now (place_of_pair a (a + 1)) found }
    ensures { IsFoundBelow encounter.now (place_of_pair (a + 1) (a + 2)) result }
{
    let mut so_far = found;
    for b in a + 1..crafts {
        so_far = found_with(encounter, so_far, a, b);
    }
    so_far
}

// What is found among all pairs; none where there is one aircraft.
fn nearest_approach(encounter: &Encounter, crafts: u8) -> Option<Approach>
    requires crafts { crafts ≡ length encounter.now.crafts }
    requires some { 1 ≤ crafts }
    requires few { crafts ≤ 16 }
    ensures { MatchOption result (length encounter.now.crafts ≡ 1) (IsNearestApproach encounter.now) }
{
    let mut so_far = None;
    for a in 0..crafts {
        so_far = found_with_all(encounter, so_far, a, crafts);
    }
    so_far
}

// The slant range of two aircraft in a cycle. No two are too far apart for 32 bits.
fn range_in(encounter: &Encounter, a: u8, b: u8, cycle: u16) -> u64
    requires a { a < length encounter.now.crafts }
    requires b { b < length encounter.now.crafts }
    requires cycle { IsCycle cycle }
    ensures value { result ≡ range_between encounter.now a b cycle }
    ensures near { result < 2 ^ 32 }
{
    slant_range(position(encounter, a, cycle), position(encounter, b, cycle))
}

fn slant(encounter: &Encounter, a: u8, b: u8, cycle: u16) -> u32
    requires a { a < length encounter.now.crafts }
    requires b { b < length encounter.now.crafts }
    requires cycle { IsCycle cycle }
    ensures { result ≡ range_between encounter.now a b cycle }
{
    range_in(encounter, a, b, cycle) as u32
}

// What is told of two aircraft.
fn told(state: &AirState, it: &Approach) -> Nearest
    requires { IsNearestApproach state.now.encounter it.now }
    ensures { IsNearest state.now.encounter state.now.journal result }
{
    state.legal_law();
    let encounter = state.enc();
    let crafts = encounter.crafts();
    Nearest {
        low: it.low,
        high: it.high,
        one: crafts[usize::from(it.low)].address,
        other: crafts[usize::from(it.high)].address,
        cycle: it.cycle,
        slant: slant(encounter, it.low, it.high, it.cycle),
        planned: planned_apart(encounter, it.low, it.high, it.cycle),
        flown: flown_apart(state, it.low, it.high, it.cycle),
    }
}

/// The two aircraft that come nearest, as planned; none where there is one aircraft.
pub(crate) fn nearest_pair(state: &AirState) -> Option<Nearest>
    ensures { MatchOption result (length state.now.encounter.crafts ≡ 1) (IsNearest state.now.encounter state.now.journal) }
{
    match nearest_approach(state.enc(), crafts(state)) {
        Some(found) => Some(told(state, &found)),
        None => None,
    }
}
