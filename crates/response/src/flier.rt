// An aircraft that flies with the modelled response.
ghost use Rattle.std.specs.Prelude.{◌≡◌, ◌+◌, ◌<◌, ◌≤◌, ◌^◌, ◌-ℤ◌, unsigned_abs, IfSome, length};
ghost use Rattle.acas_base.specs.Ranges.{IsCycle, IsWithin};
ghost use Rattle.flight.specs.Flight.{position};
ghost use Rattle.response.specs.Flown.{altitude_units, first_advised, flown, flown_from, rate_units};
ghost use Rattle.response.specs.Flying.{IsMotion, begun, flight_in, flying, highest, moved_on, responded};

use crate::advice::{Advised, response_to};
use crate::motion::Motion;
use acas_base::Encounter;
use acas_num::floor_div;
use advisory_report::{Composite, has_advice, shown};
use air_journal::{AirState, is_ra};
use flight::position;
use std::marker::Model;

/// An altitude in 1/60 ft, in 1/2048 ft and rounded down.
pub fn altitude_units(z: i64) -> i64
    requires { unsigned_abs z ≤ 9590000 }
    ensures value { result ≡ altitude_units z }
    ensures bound { unsigned_abs result ≤ 2 ^ 29 }
{
    floor_div(2048 * z, 60)
}

// A rate in ft/min, in 1/1024 ft/s and rounded down.
fn rate_units(rate: i64) -> i64
    requires { IsWithin 10000 rate }
    ensures value { result ≡ rate_units rate }
    ensures bound { unsigned_abs result ≤ 2 ^ 18 }
{
    floor_div(1024 * rate, 60)
}

// Where an aircraft is planned to be, in 1/60 ft.
fn planned_z(plan: &Encounter, own: u8, cycle: u16) -> i64
    requires own { own < length plan.now.crafts }
    requires cycle { IsCycle cycle }
    ensures value { result ≡ (position plan.now own cycle).z }
    ensures bound { unsigned_abs result ≤ 9590000 }
{
    position(plan, own, cycle).z
}

// The rate from one cycle to the next. In ft/min it is what an altitude in 1/60 ft changes by in a second.
fn rate_between(here: i64, next: i64) -> i64
    requires here { unsigned_abs here ≤ 9590000 }
    requires next { unsigned_abs next ≤ 9590000 }
    requires rate { IsWithin 10000 (next -ℤ here) }
    ensures value { result ≡ rate_units (next -ℤ here) }
    ensures bound { unsigned_abs result ≤ 2 ^ 18 }
{
    rate_units(next - here)
}

// What moves in a cycle: an aircraft that flew as planned so far begins to respond where there is advice.
fn begun(motion: Option<Motion>, now: &Composite, altitude: i64, rate: i64) -> Option<Motion>
    ensures { result ≡ begun motion now.now altitude rate }
{
    if motion.is_some() {
        return motion;
    }
    if has_advice(now) {
        return Some(Motion { altitude, rate });
    }
    None
}

// The motion at the end of a cycle.
fn responded(motion: Motion, advised: &Advised, cycle: u16, rate: i64) -> Motion
    requires run { cycle ≤ 600 }
    requires changed { advised.now.changed ≤ cycle }
    requires rate { unsigned_abs rate ≤ 2 ^ 18 }
    requires motion { IsMotion (highest cycle) motion }
    ensures value { result ≡ responded advised.now cycle rate motion }
    ensures bounds { IsMotion (highest (cycle + 1)) result }
{
    let response = response_to(&advised.before, &advised.shown);
    motion.moved_twice(&advised.shown, rate, response, cycle - advised.changed)
}

// The motion at the end of a cycle, where there is one, by what is planned at its beginning.
fn moved_on(
    motion: Option<Motion>,
    advised: &Advised,
    cycle: u16,
    altitude: i64,
    rate: i64,
) -> Option<Motion>
    requires run { cycle ≤ 600 }
    requires changed { advised.now.changed ≤ cycle }
    requires altitude { unsigned_abs altitude ≤ 2 ^ 29 }
    requires rate { unsigned_abs rate ≤ 2 ^ 18 }
    requires motion { IfSome motion (IsMotion (highest cycle)) }
    ensures value { result ≡ moved_on motion advised.now cycle altitude rate }
    ensures bounds { IfSome result (IsMotion (highest (cycle + 1))) }
{
    match begun(motion, &advised.shown, altitude, rate) {
        Some(motion) => Some(responded(motion, advised, cycle, rate)),
        None => None,
    }
}

// An aircraft at the beginning of a cycle. It flies as planned as long as nothing is advised. The plan is that of an
// encounter, and the advice that of a state, which may be one of another encounter.
#[derive(Drop)]
pub(crate) struct Flier<'a> {
    plan: &'a Encounter,
    state: &'a AirState,
    own: u8,
    // It is of kind RA. Any other aircraft flies as planned, whatever it shows.
    responds: bool,
    cycle: u16,
    // Where it is planned to be, in 1/60 ft.
    planned: i64,
    advised: Advised,
    motion: Option<Motion>,
}

impl<'a> Model for Flier<'a> {
    ghost use Rattle.response.specs.Flying.{Flying, IsFlier, flying};

    ghost Value = { Flying };

    ghost view = { λ f. flying f.plan.now f.state.now.journal f.own f.cycle };

    ghost invariant = { λ f. IsFlier (flying f.plan.now f.state.now.journal f.own f.cycle) f.responds f.planned f.advised f.motion };
}

impl<'a> Flier<'a> {
    // In cycle 1.
    pub fn new(plan: &'a Encounter, state: &'a AirState, own: u8) -> Flier<'a>
        requires { own < length plan.now.crafts }
        ensures { result ≡ flying plan.now state.now.journal own 1 }
    {
        state.legal_law();
        plan.valid_law();
        Flier {
            plan,
            state,
            own,
            responds: is_ra(plan, own),
            cycle: 1,
            planned: planned_z(plan, own, 1),
            advised: Advised::nothing(),
            motion: None,
        }
    }

    // Flies to the next cycle of the run.
    pub fn fly(&mut self)
        requires { self.old.cycle < self.old.encounter.cycles }
        ensures { self.new ≡ flying self.old.encounter self.old.journal self.old.own (self.old.cycle + 1) }
    {
        self.plan.valid_law();
        let cycle = self.cycle;
        let now = shown(self.state.cells(self.own, cycle));
        let next = planned_z(self.plan, self.own, cycle + 1);
        let rate = rate_between(self.planned, next);
        let altitude = altitude_units(self.planned);
        self.advised = self.advised.with(cycle, now);
        self.motion = moved_on(self.motion, &self.advised, cycle, altitude, rate);
        self.planned = next;
        self.cycle = cycle + 1;
    }

    // Its altitude, in 1/2048 ft.
    #[tactic(auto, unfolding(crate::specs::Flown::flown))]
    pub fn altitude(&self) -> i64
        ensures value { result ≡ flown self.now.encounter self.now.journal self.now.own self.now.cycle }
        ensures bound { unsigned_abs result ≤ 2 ^ 30 }
    {
        if self.responds {
            return self.responding();
        }
        altitude_units(self.planned)
    }

    // The altitude that it has by what it shows.
    fn responding(&self) -> i64
        ensures value { result ≡ flown_from (flight_in self.now) self.now.cycle (first_advised (flight_in self.now) self.now.encounter.cycles) }
        ensures bound { unsigned_abs result ≤ 2 ^ 30 }
    {
        self.plan.valid_law();
        match self.motion {
            Some(motion) => motion.altitude,
            None => altitude_units(self.planned),
        }
    }
}
