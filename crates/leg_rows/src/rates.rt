// How a place changes in a second.
ghost use Rattle.std.specs.Prelude.{◌≡◌, ◌↔◌, ◌≤◌, ◌^◌, ◌-ℤ◌, unsigned_abs, IsTrue};
ghost use Rattle.flight.specs.Bounds.{IsReachable};
ghost use Rattle.leg_rows.specs.Rows.{AreLegRates, at_rest, change, leg_with, same_rates};

use acas_base::{Leg, Record};
use flight::Place;

// How a place changes in a second: `vx` and `vy` in ft, `vz` in 1/60 ft. As rates of a leg these are ft/s and ft/min.
#[derive(Clone, Copy)]
pub(crate) struct Rates {
    vx: i32,
    vy: i32,
    vz: i32,
}

// For the proof: the bounds of a difference.
fn difference(a: i64, b: i64) -> i32
    requires a { unsigned_abs a ≤ 2 ^ 24 }
    requires b { unsigned_abs b ≤ 2 ^ 24 }
    ensures { result ≡ a -ℤ b }
{
    (a - b) as i32
}

impl Rates {
    // The rates of an aircraft that doesn't move.
    pub(crate) fn at_rest() -> Rates
        ensures { result ≡ at_rest }
    {
        Rates {
            vx: 0,
            vy: 0,
            vz: 0,
        }
    }

    // The rates that lead from one place to another one in a second.
    pub(crate) fn between(from: &Place, to: &Place) -> Rates
        requires from { IsReachable from.now }
        requires to { IsReachable to.now }
        ensures { result ≡ change from.now to.now }
    {
        Rates {
            vx: difference(to.x, from.x),
            vy: difference(to.y, from.y),
            vz: difference(to.z, from.z),
        }
    }

    // Whether they are the same as others.
    pub(crate) fn is_same(self, other: Rates) -> bool
        ensures { result ≡ same_rates self other }
    {
        self.vx == other.vx && self.vy == other.vy && self.vz == other.vz
    }

    // The leg of an aircraft with these rates, from a cycle on.
    pub(crate) fn leg(self, craft: u8, from: u16) -> Leg
        ensures { result ≡ leg_with craft from self }
    {
        Leg {
            craft,
            from,
            vx: self.vx,
            vy: self.vy,
            vz: self.vz,
        }
    }

    // Whether a leg can have them.
    pub(crate) fn fit(self) -> bool
        ensures { IsTrue result ↔ AreLegRates self }
    {
        self.leg(0, 1).fits(1)
    }
}
