// Where all aircraft are in one cycle.
ghost use Rattle.std.specs.Prelude.{◌≡◌, ℕ, ◌+◌, ◌<◌, ◌≤◌, pos, neg_ℤ, IfSome, length};
ghost use Rattle.acas_base.specs.Ranges.{IsCycle};
ghost use Rattle.acas_base.specs.declared.TheConstants.{CRAFTS};
ghost use Rattle.acas_num.specs.Clamp.{LiesBetween};
ghost use Rattle.flight.specs.Approach.{range_between};
ghost use Rattle.flight.specs.Bounds.{IsReachable};
ghost use Rattle.flight.specs.Flight.{ArePlaces, nowhere, position};
ghost use Rattle.flight.specs.Inside.{IsInBox, IsInside};
ghost use Rattle.flight.specs.Measurement.{is_missed, measurement, own_altitude};

use crate::course::Course;
use crate::measuring::{feet, measured};
use crate::misses::{is_missed, owns_missing};
use crate::ranges::{put_ranges, ranges_of};
use crate::{Meas, Place, position, slant_range};
use acas_base::{CRAFTS, Encounter, PAIRS, pair_of};
use std::array::from_fn;
use std::marker::Model;

/// Where all aircraft of an encounter are in a cycle, for a caller that measures several of them in it.
#[derive(Drop)]
pub struct Places<'a> {
    encounter: &'a Encounter,
    cycle: u16,
    list: [Place; CRAFTS],
    // Which own aircraft miss some target in that cycle. Most miss none.
    missing: [bool; CRAFTS],
    // The slant ranges, where `move_to` measured them.
    ranges: Option<[u32; PAIRS]>,
}

impl<'a> Model for Places<'a> {
    ghost use Rattle.std.specs.Prelude.{IfSome};
    ghost use Rattle.acas_base.specs.Ranges.{IsCycle};
    ghost use Rattle.flight.specs.Approach.{AreRanges};
    ghost use Rattle.flight.specs.Flight.{ArePlaces, Moment};
    ghost use Rattle.flight.specs.Measurement.{AreMissing};

    ghost Value = { Moment };

    ghost view = { λ p. record { encounter = p.encounter.now; cycle = p.cycle } };

    ghost invariant = { λ p. IsCycle p.cycle × ArePlaces p.encounter.now p.cycle p.list × AreMissing p.encounter.now p.cycle p.missing × IfSome p.ranges (AreRanges p.encounter.now p.cycle) };
}

impl<'a> Places<'a> {
    /// The places in a cycle: those that [`position`] gives.
    pub fn new(encounter: &'a Encounter, cycle: u16) -> Places<'a>
        requires { IsCycle cycle }
        ensures { result ≡ record { encounter = encounter.now; cycle = cycle } }
    {
        Places {
            encounter,
            cycle,
            list: from_fn(|craft| { place_at(encounter, craft, cycle) }),
            missing: owns_missing(encounter, cycle),
            ranges: None,
        }
    }

    /// Goes to another cycle, and measures the range of each two aircraft there, once for both. It serves a caller in
    /// which all aircraft look in that cycle. Where one aircraft looks alone, [`Places::new`] leads to less work.
    pub fn move_to(&mut self, cycle: u16)
        requires { IsCycle cycle }
        ensures { self.new ≡ record { encounter = self.old.encounter; cycle = cycle } }
    {
        // For the proof: no encounter has more than 16 aircraft.
        self.encounter.valid_law();
        let count = self.encounter.crafts().len() as u8;
        if cycle == self.cycle + 1 {
            step_places(&mut self.list, self.encounter, self.cycle);
        } else {
            put_places(&mut self.list, self.encounter, cycle);
        }
        self.cycle = cycle;
        self.missing = owns_missing(self.encounter, cycle);
        match &mut self.ranges {
            Some(ranges) => put_ranges(ranges, &self.list, count),
            None => self.ranges = Some(ranges_of(&self.list, count)),
        }
    }

    /// Goes to the next cycle, and measures no ranges. It serves a caller in which few aircraft look in a cycle.
    pub fn go_on(&mut self)
        requires { self.old.cycle < 600 }
        ensures { self.new ≡ record { encounter = self.old.encounter; cycle = self.old.cycle + 1 } }
    {
        step_places(&mut self.list, self.encounter, self.cycle);
        self.cycle += 1;
        self.missing = owns_missing(self.encounter, self.cycle);
        self.ranges = None;
    }

    /// The encounter.
    pub fn encounter(&self) -> &'a Encounter
        ensures { result.now ≡ self.now.encounter }
    {
        self.encounter
    }

    /// The cycle.
    pub fn cycle(&self) -> u16
        ensures { result ≡ self.now.cycle }
    {
        self.cycle
    }

    // Where an aircraft is in that cycle.
    fn place_of(&self, craft: u8) -> Place
        requires { craft < length self.now.encounter.crafts }
        ensures value { result ≡ position self.now.encounter craft self.now.cycle }
        ensures bounds { IsReachable result }
        ensures inside { IsInside self.now.encounter → self.now.cycle ≤ self.now.encounter.cycles → IsInBox result }
    {
        // For the proof: no encounter has more than 16 aircraft.
        self.encounter.valid_law();
        self.list[usize::from(craft)]
    }

    // The slant range of two aircraft in that cycle. It is inlined where an aircraft looks at all others.
    #[inline(always)]
    fn range_between(&self, own: u8, target: u8) -> u64
        requires own { own < length self.now.encounter.crafts }
        requires target { target < length self.now.encounter.crafts }
        ensures { result ≡ range_between self.now.encounter own target self.now.cycle }
    {
        // For the proof: no encounter has more than 16 aircraft.
        self.encounter.valid_law();
        match &self.ranges {
            Some(ranges) => u64::from(ranges[pair_of(own, target)]),
            None => slant_range(self.place_of(own), self.place_of(target)),
        }
    }

    // Whether a record says that an own aircraft misses a target in that cycle.
    #[inline(always)]
    fn is_missed(&self, own: u8, target: u8) -> bool
        requires { own < length self.now.encounter.crafts }
        ensures { result ≡ is_missed self.now.encounter own target self.now.cycle }
    {
        // For the proof: no encounter has more than 16 aircraft.
        self.encounter.valid_law();
        self.missing[usize::from(own)] && is_missed(self.encounter, own, target, self.cycle)
    }

    /// What [`crate::own_altitude`] gives in that cycle.
    #[tactic(auto, unfolding(crate::specs::Measurement::own_altitude))]
    pub fn own_altitude(&self, craft: u8) -> i32
        requires { craft < length self.now.encounter.crafts }
        ensures value { result ≡ own_altitude self.now.encounter craft self.now.cycle }
        ensures altitude { IsInside self.now.encounter → self.now.cycle ≤ self.now.encounter.cycles → LiesBetween (neg_ℤ (pos 1000)) (pos 60000) result }
    {
        feet(self.place_of(craft).z)
    }

    /// What [`crate::measure`] gives in that cycle. The call is inlined where an aircraft looks at all others.
    #[inline(always)]
    pub fn measure(&self, own: u8, target: u8) -> Option<Meas>
        requires own { own < length self.now.encounter.crafts }
        requires target { target < length self.now.encounter.crafts }
        ensures value { result ≡ measurement self.now.encounter own target self.now.cycle }
        ensures range { IfSome result (λ m. m.range ≤ 182280) }
        ensures altitude { IsInside self.now.encounter → self.now.cycle ≤ self.now.encounter.cycles → IfSome result (λ m. LiesBetween (neg_ℤ (pos 2000)) (pos 62000) m.alt) }
    {
        if self.is_missed(own, target) {
            return None;
        }
        measured(self.range_between(own, target), self.place_of(target))
    }
}

// Puts the places of all aircraft in a cycle where those in another cycle stood.
fn put_places(places: &mut [Place; CRAFTS], encounter: &Encounter, cycle: u16)
    requires { IsCycle cycle }
    ensures { (before : ℕ) → ArePlaces encounter.now before places.old → ArePlaces encounter.now cycle places.new }
{
    // No encounter has more than 16 aircraft.
    encounter.valid_law();
    for craft in 0..encounter.crafts().len() {
        places[craft] = position(encounter, craft as u8, cycle);
    }
}

// Puts the places of all aircraft one cycle later where those in a cycle stood. An aircraft with many legs takes no more
// time than one with few.
fn step_places(places: &mut [Place; CRAFTS], encounter: &Encounter, cycle: u16)
    requires cycle { IsCycle cycle }
    requires more { cycle < 600 }
    requires places { ArePlaces encounter.now cycle places.old }
    ensures { ArePlaces encounter.now (cycle + 1) places.new }
{
    // No encounter has more than 16 aircraft.
    encounter.valid_law();
    for craft in 0..encounter.crafts().len() {
        places[craft] = place_later(encounter, craft, places[craft], cycle);
    }
}

// Where an aircraft is one cycle later.
fn place_later(encounter: &Encounter, craft: usize, place: Place, cycle: u16) -> Place
    requires craft { craft < length encounter.now.crafts }
    requires cycle { IsCycle cycle }
    requires more { cycle < 600 }
    requires place { place ≡ position encounter.now craft cycle }
    ensures value { result ≡ position encounter.now craft (cycle + 1) }
    ensures bounds { IsReachable result }
{
    Course::of(encounter, craft).place_after(place, cycle)
}

// Where the aircraft at an index is in a cycle.
fn place_at(encounter: &Encounter, craft: usize, cycle: u16) -> Place
    requires craft { craft < CRAFTS }
    requires cycle { IsCycle cycle }
    ensures value { result ≡ position encounter.now craft cycle }
    ensures bounds { IsReachable result }
{
    if craft < encounter.crafts().len() {
        return position(encounter, craft as u8, cycle);
    }
    no_place()
}

// The place that stands for the place of an aircraft that doesn't exist.
fn no_place() -> Place
    ensures value { result ≡ nowhere }
    ensures bounds { IsReachable result }
{
    Place { x: 0, y: 0, z: 0 }
}
