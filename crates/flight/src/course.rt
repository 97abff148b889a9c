// How one aircraft flies.
ghost use Rattle.std.specs.Prelude.{◌≡◌, ◌↔◌, ℕ, ◌+◌, ◌-◌, ◌<◌, ◌≤◌, ◌^◌, ◌==◌, nat_le, nat_lt, true, false, IsTrue, filter, length};
ghost use Rattle.std.specs.List.Sorted.{IsPartitionPoint};
ghost use Rattle.acas_base.specs.Order.{IsRising, leg_below};
ghost use Rattle.acas_base.specs.Ranges.{IsCycle};
ghost use Rattle.acas_base.specs.declared.craft.Leg.{Leg};
ghost use Rattle.flight.specs.Bounds.{IsCourse, IsReachable, IsStart, begins};
ghost use Rattle.flight.specs.Flight.{place_in, position};
ghost use Rattle.flight.specs.Inside.{IsInBox};

use crate::Place;
use crate::place::start_of;
use acas_base::{Encounter, Leg};

// Where an aircraft is in cycle 1, and its legs in their order.
#[derive(Clone, Copy)]
pub(crate) struct Course<'a> {
    pub start: Place,
    pub legs: &'a [Leg],
    ghost near: { IsStart start },
    ghost ordered: { IsCourse legs.now },
}

impl<'a> Course<'a> {
    // The course of an aircraft of an encounter.
    pub(crate) fn of(encounter: &'a Encounter, craft: usize) -> Course<'a>
        requires { craft < length encounter.now.crafts }
        ensures { (cycle : ℕ) → place_in result.start result.legs.now cycle ≡ position encounter.now craft cycle }
    {
        Course {
            start: start_of(&encounter.crafts()[craft]),
            legs: legs_of(encounter.legs(), craft),
        }
    }

    // The place in a cycle, leg by leg.
    pub(crate) fn place_in(&self, cycle: u16) -> Place
        requires { IsCycle cycle }
        ensures value { result ≡ place_in self.now.start self.now.legs.now cycle }
        ensures bounds { IsReachable result }
    {
        let mut place = self.start;
        for index in 0..self.legs.len() {
            if self.legs[index].from >= cycle {
                // The other legs begin too late.
                return place;
            }
            place = place.flown(&self.legs[index], seconds_of(self.legs, index, cycle));
        }
        place
    }

    // The place one cycle later, where this is the place in a cycle.
    pub(crate) fn place_after(&self, place: Place, cycle: u16) -> Place
        requires cycle { IsCycle cycle }
        requires more { cycle < 600 }
        requires place { place ≡ place_in self.now.start self.now.legs.now cycle }
        ensures value { result ≡ place_in self.now.start self.now.legs.now (cycle + 1) }
        ensures bounds { IsReachable result }
    {
        let begun = count_begun(self.legs, cycle);
        if begun == 0 {
            return place;
        }
        place.flown(&self.legs[begun - 1], 1)
    }

    // Whether all places up to a cycle are in the box. The places on a leg lie between its ends.
    pub(crate) fn stays_inside(&self, cycles: u16) -> bool
        requires { IsCycle cycles }
        ensures { IsTrue result ↔ ((cycle : ℕ) → 1 ≤ cycle → cycle ≤ cycles → IsInBox (place_in self.now.start self.now.legs.now cycle)) }
    {
        let mut place = self.start;
        if !place.is_in_box() {
            return false;
        }
        for index in 0..self.legs.len() {
            place = place.flown(&self.legs[index], seconds_of(self.legs, index, cycles));
            if !place.is_in_box() {
                return false;
            }
        }
        true
    }
}

// The legs of an aircraft, among all legs in their order.
fn legs_of(legs: &[Leg], craft: usize) -> &[Leg]
    requires rising { IsRising leg_below legs.now }
    requires craft { craft < 2 ^ 16 }
    ensures { result.now ≡ filter (λ (leg : Leg). leg.craft == craft) legs.now }
{
    let first = count_before(legs, craft);
    let past = count_before(legs, craft + 1);
    let rest = &legs[first..];
    &rest[..past - first]
}

// How many legs are of aircraft with a lower index.
fn count_before(legs: &[Leg], craft: usize) -> usize
    requires { IsRising leg_below legs.now }
    ensures bound { result ≤ length legs.now }
    ensures parted { IsPartitionPoint (λ (leg : Leg). nat_lt leg.craft craft ≡ true) (λ (leg : Leg). nat_lt leg.craft craft ≡ false) legs.now result }
{
    legs.partition_point(|leg| usize::from(leg.craft) < craft)
}

// How many legs begin in a cycle or before it.
fn count_begun(legs: &[Leg], cycle: u16) -> usize
    requires { IsCourse legs.now }
    ensures bound { result ≤ length legs.now }
    ensures parted { IsPartitionPoint (λ (leg : Leg). nat_le leg.from cycle ≡ true) (λ (leg : Leg). nat_le leg.from cycle ≡ false) legs.now result }
{
    legs.partition_point(|leg| leg.from <= cycle)
}

// The cycle in which the leg at an index begins, but no later than `cycle`. Where there is no such leg it is `cycle`.
fn begins(legs: &[Leg], index: usize, cycle: u16) -> u16
    ensures { result ≡ begins legs.now index cycle }
{
    match legs.get(index) {
        Some(leg) => leg.from.min(cycle),
        None => cycle,
    }
}

// How many seconds of the leg at an index are over in `cycle`.
fn seconds_of(legs: &[Leg], index: usize, cycle: u16) -> u16
    requires course { IsCourse legs.now }
    requires index { index < length legs.now }
    requires cycle { IsCycle cycle }
    ensures value { result ≡ begins legs.now (index + 1) cycle - begins legs.now index cycle }
    ensures bound { result ≤ 600 }
{
    begins(legs, index + 1, cycle) - begins(legs, index, cycle)
}
