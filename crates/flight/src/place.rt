// Places, and how they change along a leg.
ghost use Rattle.std.specs.Prelude.{◌≡◌, ◌↔◌, ◌≤◌, ◌^◌, pos, ◌+ℤ◌, ◌*ℤ◌, unsigned_abs, IsTrue};
ghost use Rattle.acas_base.specs.Encounter.{AreRates, IsCraft};
ghost use Rattle.acas_base.specs.Ranges.{IsBetween, IsWithin};
ghost use Rattle.flight.specs.Bounds.{flown, IsReachable, IsStart};
ghost use Rattle.flight.specs.Flight.{start_of};
ghost use Rattle.flight.specs.Inside.{IsInBox};

use acas_base::{CraftSpec, Leg};

/// Where an aircraft is: `x` and `y` in ft, and the altitude `z` in 1/60 ft.
#[derive(Clone, Copy, Debug, PartialEq, Eq)]
pub struct Place {
    pub x: i64,
    pub y: i64,
    pub z: i64,
}

// Where an aircraft is in cycle 1.
pub(crate) fn start_of(craft: &CraftSpec) -> Place
    requires { IsCraft craft.now }
    ensures value { result ≡ start_of craft.now }
    ensures bounds { IsStart result }
{
    Place {
        x: i64::from(craft.x),
        y: i64::from(craft.y),
        z: 60 * i64::from(craft.alt),
    }
}

// For the proof: the bounds of a product.
fn carried(rate: i32, seconds: u16) -> i64
    requires rate { IsWithin 10000 rate }
    requires seconds { seconds ≤ 600 }
    ensures value { result ≡ rate *ℤ pos seconds }
    ensures bound { unsigned_abs result ≤ 2 ^ 24 }
{
    i64::from(rate) * i64::from(seconds)
}

// For the proof: the bounds of a sum.
fn sum(a: i64, b: i64) -> i64
    requires a { unsigned_abs a ≤ 2 ^ 24 }
    requires b { unsigned_abs b ≤ 2 ^ 24 }
    ensures { result ≡ a +ℤ b }
{
    a + b
}

// One coordinate after some seconds at a rate.
fn moved(from: i64, rate: i32, seconds: u16) -> i64
    requires from { unsigned_abs from ≤ 2 ^ 24 }
    requires rate { IsWithin 10000 rate }
    requires seconds { seconds ≤ 600 }
    ensures { result ≡ from +ℤ (rate *ℤ pos seconds) }
{
    sum(from, carried(rate, seconds))
}

fn is_between(low: i64, value: i64, high: i64) -> bool
    ensures { IsTrue result ↔ IsBetween low high value }
{
    low <= value && value <= high
}

impl Place {
    // The place after some seconds of a leg.
    pub(crate) fn flown(self, leg: &Leg, seconds: u16) -> Place
        requires place { IsReachable self }
        requires rates { AreRates leg.now }
        requires seconds { seconds ≤ 600 }
        ensures { result ≡ flown self leg.now seconds }
    {
        Place {
            x: moved(self.x, leg.vx, seconds),
            y: moved(self.y, leg.vy, seconds),
            z: moved(self.z, leg.vz, seconds),
        }
    }

    // Whether it is in the box.
    pub(crate) fn is_in_box(&self) -> bool
        ensures { IsTrue result ↔ IsInBox self.now }
    {
        is_between(-1_000_000, self.x, 1_000_000)
            && is_between(-1_000_000, self.y, 1_000_000)
            && is_between(-60_000, self.z, 3_600_000)
    }
}
