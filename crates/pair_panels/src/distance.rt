// How far two aircraft are apart, and the axis that holds it.
ghost use Rattle.std.specs.Prelude.{◌≡◌, ◌+◌, ◌*◌, ◌/◌, ◌-ℤ◌, ◌<◌, ◌≤◌, ◌^◌, length, max, unsigned_abs};
ghost use Rattle.acas_base.specs.Ranges.{IsCycle};
ghost use Rattle.flight.specs.Approach.{range_between};
ghost use Rattle.flight.specs.Inside.{IsInside};
ghost use Rattle.pair_panels.specs.Distances.{HoldsAll, IsAxis, aim_of, alim_of, distance_in, end_of, greatest, height_between, step_of, steps_of, ticks_for, ticks_of};
ghost use Rattle.pair_panels.specs.Nearest.{IsPair};

use crate::nearest::NearPair;
use crate::ticks::Ticks;
use acas_base::Encounter;
use flight::{position, slant_range};
use plot_axes::least_step;
use sens_table::level_in;

/// A distance of two aircraft.
#[derive(Clone, Copy)]
pub enum Distance {
    /// The slant range.
    Slant,
    /// How far their altitudes are apart.
    Vertical,
}

// The slant range, with its bound.
fn slant_between(encounter: &Encounter, one: u8, other: u8, cycle: u16) -> u64
    requires one { one < length encounter.now.crafts }
    requires other { other < length encounter.now.crafts }
    requires cycle { IsCycle cycle }
    ensures value { result ≡ range_between encounter.now one other cycle }
    ensures near { result < 2 ^ 26 }
{
    slant_range(
        position(encounter, one, cycle),
        position(encounter, other, cycle),
    )
}

fn apart(a: i64, b: i64) -> u64
    requires a { unsigned_abs a ≤ 2 ^ 30 }
    requires b { unsigned_abs b ≤ 2 ^ 30 }
    ensures value { result ≡ unsigned_abs (a -ℤ b) }
    ensures bound { result ≤ 2 ^ 31 }
{
    (a - b).unsigned_abs()
}

// How far two altitudes are apart.
fn height_between(encounter: &Encounter, one: u8, other: u8, cycle: u16) -> u32
    requires one { one < length encounter.now.crafts }
    requires other { other < length encounter.now.crafts }
    requires cycle { IsCycle cycle }
    ensures value { result ≡ height_between encounter.now one other cycle }
    ensures near { result < 2 ^ 26 }
{
    let heights = apart(
        position(encounter, one, cycle).z,
        position(encounter, other, cycle).z,
    );
    (heights / 60) as u32
}

/// A distance of a pair in a cycle, in ft.
#[tactic(auto, unfolding(crate::specs::Distances::distance_in))]
pub(crate) fn distance_in(
    encounter: &Encounter,
    distance: Distance,
    pair: NearPair,
    cycle: u16,
) -> u32
    requires pair { IsPair encounter.now pair }
    requires cycle { IsCycle cycle }
    ensures value { result ≡ distance_in encounter.now distance pair cycle }
    ensures near { result < 2 ^ 26 }
{
    match distance {
        Distance::Slant => slant_between(encounter, pair.one, pair.other, cycle) as u32,
        Distance::Vertical => height_between(encounter, pair.one, pair.other, cycle),
    }
}

// ALIM in ft.
#[tactic(auto, unfolding(crate::specs::Distances::alim_of))]
fn alim_of(encounter: &Encounter, pair: NearPair) -> u32
    requires pair { IsPair encounter.now pair }
    requires inside { IsInside encounter.now }
    requires few { encounter.now.cycles ≤ 600 }
    ensures value { result ≡ alim_of encounter.now pair }
    ensures near { result < 2 ^ 26 }
{
    encounter.valid_law();
    let level = level_in(encounter, pair.one, pair.cycle);
    (level.alim.unsigned_abs() / 1024) as u32
}

/// What a distance is held against, in ft; 0 where there is nothing.
#[tactic(auto, unfolding(crate::specs::Distances::aim_of))]
pub(crate) fn aim_of(encounter: &Encounter, distance: Distance, pair: NearPair) -> u32
    requires pair { IsPair encounter.now pair }
    requires inside { IsInside encounter.now }
    requires few { encounter.now.cycles ≤ 600 }
    ensures value { result ≡ aim_of encounter.now distance pair }
    ensures near { result < 2 ^ 26 }
{
    match distance {
        Distance::Slant => 0,
        Distance::Vertical => alim_of(encounter, pair),
    }
}

fn larger(one: u32, other: u32) -> u32
    requires one { one < 2 ^ 26 }
    requires other { other < 2 ^ 26 }
    ensures value { result ≡ max one other }
    ensures near { result < 2 ^ 26 }
{
    if one < other { other } else { one }
}

// The greatest distance in the run, and no less than a given one.
fn greatest(encounter: &Encounter, distance: Distance, pair: NearPair, least: u32) -> u32
    requires pair { IsPair encounter.now pair }
    requires least { least < 2 ^ 26 }
    ensures value { result ≡ greatest encounter.now distance pair least encounter.now.cycles }
    ensures near { result < 2 ^ 26 }
{
    encounter.valid_law();
    let mut most = least;
    for cycle in 1..encounter.cycles() + 1 {
        most = larger(most, distance_in(encounter, distance, pair, cycle));
    }
    most
}

// The steps of slant ranges, in ft.
const SLANTS: [u32; 9] = [
    1_519, 3_038, 6_076, 12_152, 30_380, 60_760, 121_520, 303_800, 607_600,
];

// Those of vertical distances.
const HEIGHTS: [u32; 8] = [100, 200, 500, 1_000, 2_000, 5_000, 10_000, 20_000];

#[tactic(auto, unfolding(crate::specs::Distances::step_of))]
fn step_of(distance: Distance, most: u32) -> u32
    ensures value { result ≡ step_of distance most }
    ensures some { 1 ≤ result }
    ensures near { result ≤ 607600 }
{
    match distance {
        Distance::Slant => least_step(most, 5, &SLANTS),
        Distance::Vertical => least_step(most, 5, &HEIGHTS),
    }
}

#[tactic(auto, unfolding(crate::specs::Distances::ticks_for))]
fn ticks_for(distance: Distance, most: u32) -> Ticks
    requires { most < 2 ^ 26 }
    ensures value { result ≡ ticks_for distance most }
    ensures axis { IsAxis result }
{
    let step = step_of(distance, most);
    Ticks {
        step,
        count: most / step + 1,
    }
}

/// The ticks of the axis that holds a distance in each cycle.
#[tactic(auto, unfolding(crate::specs::Distances::ticks_of))]
pub(crate) fn ticks_of(encounter: &Encounter, distance: Distance, pair: NearPair) -> Ticks
    requires pair { IsPair encounter.now pair }
    requires inside { IsInside encounter.now }
    ensures value { result ≡ ticks_of encounter.now distance pair }
    ensures axis { IsAxis result }
{
    encounter.valid_law();
    let aim = aim_of(encounter, distance, pair);
    ticks_for(distance, greatest(encounter, distance, pair, aim))
}

/// A law: the axis holds the distance of each cycle, and what it is held against.
pub(crate) fn axis_law(encounter: &Encounter, distance: Distance, pair: NearPair)
    ensures { HoldsAll encounter.now distance pair }
{
    let _ = encounter;
    let _ = distance;
    let _ = pair;
}
