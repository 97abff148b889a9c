// The vertical motion of an aircraft, by half-seconds.
ghost use Rattle.std.specs.Prelude.{◌≡◌, ◌+◌, ◌≤◌, ◌^◌, pos, ◌≤ℤ◌, ◌+ℤ◌, ◌-ℤ◌, unsigned_abs};
ghost use Rattle.craft_view.specs.Separations.{IsResponse};
ghost use Rattle.response.specs.Flown.{at_rate, goal_of, moved, moved_twice, rate_after, toward};

use acas_base::Sense;
use acas_num::clamp;
use advisory_report::Composite;
use craft_view::{Response, asked_rate};

// An altitude in 1/2048 ft and a vertical rate in 1/1024 ft/s, so that in a half-second the altitude grows by the rate.
#[derive(Clone, Copy)]
pub(crate) struct Motion {
    pub altitude: i64,
    pub rate: i64,
}

// For the proof: the bounds of a sum.
fn sum(a: i64, b: i64) -> i64
    requires a { unsigned_abs a ≤ 2 ^ 31 }
    requires b { unsigned_abs b ≤ 2 ^ 31 }
    ensures { result ≡ a +ℤ b }
{
    a + b
}

fn difference(a: i64, b: i64) -> i64
    requires a { unsigned_abs a ≤ 2 ^ 31 }
    requires b { unsigned_abs b ≤ 2 ^ 31 }
    ensures { result ≡ a -ℤ b }
{
    a - b
}

// A rate that is moved towards a goal by a step at most.
fn toward(goal: i64, step: i64, rate: i64) -> i64
    requires goal { unsigned_abs goal ≤ 2 ^ 18 }
    requires forward { pos 1 ≤ℤ step }
    requires step { step ≤ℤ pos (2 ^ 16) }
    requires rate { unsigned_abs rate ≤ 2 ^ 18 }
    ensures value { result ≡ toward goal step rate }
    ensures bound { unsigned_abs result ≤ 2 ^ 18 }
{
    sum(rate, clamp(difference(goal, rate), -step, step))
}

// The rate to fly at.
fn goal_of(composite: &Composite, planned: i64, rate: i64) -> i64
    requires planned { unsigned_abs planned ≤ 2 ^ 18 }
    requires rate { unsigned_abs rate ≤ 2 ^ 18 }
    ensures value { result ≡ goal_of composite.now planned rate }
    ensures bound { unsigned_abs result ≤ 2 ^ 18 }
{
    match (composite.up, composite.down) {
        (None, None) => planned,
        (Some(up), None) => asked_rate(Sense::Up, up, rate),
        (None, Some(down)) => asked_rate(Sense::Down, down, rate),
        (Some(_), Some(_)) => 0,
    }
}

// The rate of the half-second with this number since the advice changed last.
pub(crate) fn rate_after(
    composite: &Composite,
    planned: i64,
    response: Response,
    half: u16,
    rate: i64,
) -> i64
    requires planned { unsigned_abs planned ≤ 2 ^ 18 }
    requires response { IsResponse response }
    requires rate { unsigned_abs rate ≤ 2 ^ 18 }
    ensures value { result ≡ rate_after composite.now planned response half rate }
    ensures bound { unsigned_abs result ≤ 2 ^ 18 }
{
    if half <= u16::from(response.delay) {
        return rate;
    }
    toward(goal_of(composite, planned, rate), response.step, rate)
}

impl Motion {
    fn at_rate(self, rate: i64) -> Motion
        requires altitude { unsigned_abs self.altitude ≤ 2 ^ 31 }
        requires rate { unsigned_abs rate ≤ 2 ^ 18 }
        ensures value { result ≡ at_rate self rate }
        ensures altitude { unsigned_abs result.altitude ≤ unsigned_abs self.altitude + 2 ^ 18 }
        ensures rate { unsigned_abs result.rate ≤ 2 ^ 18 }
    {
        Motion {
            altitude: sum(self.altitude, rate),
            rate,
        }
    }

    fn moved(self, composite: &Composite, planned: i64, response: Response, half: u16) -> Motion
        requires planned { unsigned_abs planned ≤ 2 ^ 18 }
        requires response { IsResponse response }
        requires altitude { unsigned_abs self.altitude ≤ 2 ^ 31 }
        requires rate { unsigned_abs self.rate ≤ 2 ^ 18 }
        ensures value { result ≡ moved composite.now planned response half self }
        ensures altitude { unsigned_abs result.altitude ≤ unsigned_abs self.altitude + 2 ^ 18 }
        ensures rate { unsigned_abs result.rate ≤ 2 ^ 18 }
    {
        self.at_rate(rate_after(composite, planned, response, half, self.rate))
    }

    // What the two half-seconds of a cycle make of it, so many cycles after the advice changed last.
    pub fn moved_twice(
        self,
        composite: &Composite,
        planned: i64,
        response: Response,
        since: u16,
    ) -> Motion
        requires planned { unsigned_abs planned ≤ 2 ^ 18 }
        requires response { IsResponse response }
        requires since { since ≤ 600 }
        requires altitude { unsigned_abs self.altitude ≤ 2 ^ 30 }
        requires rate { unsigned_abs self.rate ≤ 2 ^ 18 }
        ensures value { result ≡ moved_twice composite.now planned response since self }
        ensures altitude { unsigned_abs result.altitude ≤ unsigned_abs self.altitude + 2 ^ 19 }
        ensures rate { unsigned_abs result.rate ≤ 2 ^ 18 }
    {
        let once = self.moved(composite, planned, response, 2 * since + 1);
        once.moved(composite, planned, response, 2 * since + 2)
    }
}
