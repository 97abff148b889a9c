// The seconds that the tests need in each cycle of a run.
ghost use Rattle.std.specs.Prelude.{◌≡◌, ◌+◌, ◌-◌, ◌<◌, ◌≤◌, IfSome, None, length, slice_index_or};
ghost use Rattle.acas_base.specs.Ranges.{IsCycle};
ghost use Rattle.craft_view.specs.Kept.{Belongs};
ghost use Rattle.craft_view.specs.KnownTracks.{IsMotion};
ghost use Rattle.flight.specs.Inside.{IsInside};
ghost use Rattle.seconds_panel.specs.Own.{AreTested, tested};
ghost use Rattle.seconds_panel.specs.Seconds.{AreSeconds, motion_in, seconds_in};

use crate::own::TestedPair;
use crate::series::Series;
use acas_base::Encounter;
use craft_view::{Craft, Motion};
use flight::Places;
use std::marker::Model;
use test_seconds::{PairSeconds, pair_seconds};

/// A place for each cycle of the longest run.
pub(crate) const PLACES: usize = 600;

/// An encounter, two of its aircraft, and what the tests of the first one against the other one need in each cycle.
#[derive(Drop)]
pub(crate) struct Seconds<'a> {
    encounter: &'a Encounter,
    pair: TestedPair,
    list: [Option<PairSeconds>; PLACES],
}

impl<'a> Model for Seconds<'a> {
    ghost use Rattle.seconds_panel.specs.Own.{AreTested};
    ghost use Rattle.seconds_panel.specs.Seconds.{AreSeconds, TestedRun};

    ghost Value = { TestedRun };

    ghost view = { λ s. record { encounter = s.encounter.now; pair = s.pair } };

    ghost invariant = { λ s. AreTested s.encounter.now s.pair × AreSeconds s.encounter.now s.pair s.encounter.now.cycles s.list };
}

// What the tracks of a craft say of another aircraft.
fn motion_in(encounter: &Encounter, craft: &Craft, other: u8) -> Option<Motion>
    requires belongs { Belongs encounter.now craft.now }
    requires other { other < length encounter.now.crafts }
    ensures value { result ≡ motion_in encounter.now (tested craft.now.own other) craft.now.cycle }
    ensures bounds { IfSome result IsMotion }
{
    // No encounter has more than 16 aircraft.
    encounter.valid_law();
    craft.motion_of(other)
}

// What the tests of a craft need in the cycle of its newest picture.
#[tactic(auto, unfolding(crate::specs::Seconds::seconds_in))]
fn seconds_in(places: &Places, craft: &Craft, other: u8) -> Option<PairSeconds>
    requires belongs { Belongs places.now.encounter craft.now }
    requires begun { 1 ≤ craft.now.cycle }
    requires present { places.now.cycle ≡ craft.now.cycle }
    requires other { other < length places.now.encounter.crafts }
    ensures { result ≡ seconds_in places.now.encounter (tested craft.now.own other) craft.now.cycle }
{
    match motion_in(places.encounter(), craft, other) {
        None => None,
        Some(motion) => Some(pair_seconds(&craft.own_aircraft(places), &motion)),
    }
}

// What they need in the next cycle, in which it looks.
fn next_seconds(encounter: &Encounter, craft: &mut Craft, other: u8) -> Option<PairSeconds>
    requires belongs { Belongs encounter.now craft.old }
    requires left { craft.old.cycle < encounter.now.cycles }
    requires own { craft.old.own < length encounter.now.crafts }
    requires other { other < length encounter.now.crafts }
    ensures value { result ≡ seconds_in encounter.now (tested craft.old.own other) (craft.old.cycle + 1) }
    ensures own { craft.new.own ≡ craft.old.own }
    ensures cycle { craft.new.cycle ≡ craft.old.cycle + 1 }
    ensures belongs { Belongs encounter.now craft.new }
{
    // No run is longer than 600 cycles.
    encounter.valid_law();
    let places = Places::new(encounter, craft.cycle() + 1);
    let _ = craft.look_among(&places);
    seconds_in(&places, craft, other)
}

// What they need in each cycle.
fn all_seconds(encounter: &Encounter, pair: TestedPair) -> [Option<PairSeconds>; PLACES]
    requires pair { AreTested encounter.now pair }
    requires inside { IsInside encounter.now }
    ensures { AreSeconds encounter.now pair encounter.now.cycles result }
{
    encounter.valid_law();
    let mut craft = Craft::new(encounter, pair.own);
    let mut list = [None; PLACES];
    for cycle in 1..encounter.cycles() + 1 {
        list[usize::from(cycle - 1)] = next_seconds(encounter, &mut craft, pair.other);
    }
    list
}

// What stands at the place of a cycle.
fn at_cycle(list: &[Option<PairSeconds>; PLACES], cycle: u16) -> Option<PairSeconds>
    requires { IsCycle cycle }
    ensures { result ≡ slice_index_or list.now (cycle - 1) None }
{
    list[usize::from(cycle - 1)]
}

impl<'a> Seconds<'a> {
    ghost use Rattle.std.specs.Prelude.{◌≡◌, ◌≤◌};
    ghost use Rattle.flight.specs.Inside.{IsInside};
    ghost use Rattle.seconds_panel.specs.Own.{AreTested};
    ghost use Rattle.seconds_panel.specs.Seconds.{seconds_in, value_in};

    /// What the tests of own aircraft need against the other one.
    pub(crate) fn new(encounter: &'a Encounter, pair: TestedPair) -> Seconds<'a>
        requires pair { AreTested encounter.now pair }
        requires inside { IsInside encounter.now }
        ensures encounter { result.encounter ≡ encounter.now }
        ensures pair { result.pair ≡ pair }
    {
        Seconds {
            encounter,
            pair,
            list: all_seconds(encounter, pair),
        }
    }

    /// The number of cycles.
    pub(crate) fn cycles(&self) -> u16
        ensures value { result ≡ self.now.encounter.cycles }
        ensures some { 1 ≤ result }
        ensures few { result ≤ 600 }
    {
        self.encounter.valid_law();
        self.encounter.cycles()
    }

    /// A law: no run is longer than 600 cycles.
    pub(crate) fn run_law(&self)
        ensures { self.now.encounter.cycles ≤ 600 }
    {
        self.encounter.valid_law();
    }

    // What the tests need in a cycle.
    fn seconds(&self, cycle: u16) -> Option<PairSeconds>
        requires first { 1 ≤ cycle }
        requires last { cycle ≤ self.now.encounter.cycles }
        ensures { result ≡ seconds_in self.now.encounter self.now.pair cycle }
    {
        self.encounter.valid_law();
        at_cycle(&self.list, cycle)
    }

    /// What a line tells in a cycle.
    #[tactic(auto, unfolding(crate::specs::Seconds::value_in))]
    pub(crate) fn value(&self, series: Series, cycle: u16) -> Option<u32>
        requires first { 1 ≤ cycle }
        requires last { cycle ≤ self.now.encounter.cycles }
        ensures { result ≡ value_in self.now.encounter self.now.pair series cycle }
    {
        match self.seconds(cycle) {
            Some(seconds) => series.told(&seconds),
            None => None,
        }
    }
}
