// The ends of a track's estimate and rate.
ghost use Rattle.std.specs.Prelude.{◌≡◌, ◌≤◌, ◌^◌, ◌+ℤ◌, unsigned_abs};
ghost use Rattle.acas_num.specs.Tracks.{range_limits, altitude_limits, IsSound, IsEstimate, IsRate, estimate_in, rate_in};

use crate::ends::clamp;

/// The ends that a track's estimate and rate are clamped to (this project's profile).
#[derive(Clone, Copy)]
pub struct Limits {
    /// The lowest estimate, in 1/1024 ft.
    pub lowest: i64,
    /// The highest estimate, in 1/1024 ft.
    pub highest: i64,
    /// The greatest rate either way, in 1/1024 ft/s.
    pub fastest: i64,
}

impl Limits {
    /// The limits of a slant range: 0 to 182,280 ft, and 4,000 ft/s either way.
    pub fn range() -> Limits
        ensures value { result ≡ range_limits }
        ensures sound { IsSound result }
    {
        Limits {
            lowest: 0,
            highest: 182_280 * 1024,
            fastest: 4_000 * 1024,
        }
    }

    /// The limits of an altitude: -2,000 to 62,000 ft, and 200 ft/s either way.
    pub fn altitude() -> Limits
        ensures value { result ≡ altitude_limits }
        ensures sound { IsSound result }
    {
        Limits {
            lowest: -2_000 * 1024,
            highest: 62_000 * 1024,
            fastest: 200 * 1024,
        }
    }

    // An estimate after a change, clamped.
    pub(crate) fn estimate_after(&self, estimate: i64, change: i64) -> i64
        requires limits { IsSound self.now }
        requires estimate { unsigned_abs estimate ≤ 2 ^ 28 }
        requires change { unsigned_abs change ≤ 2 ^ 40 }
        ensures value { result ≡ estimate_in self.now (estimate +ℤ change) }
        ensures estimate { IsEstimate self.now result }
        ensures bound { unsigned_abs result ≤ 2 ^ 28 }
    {
        clamp(estimate + change, self.lowest, self.highest)
    }

    // A rate after a change, clamped.
    pub(crate) fn rate_after(&self, rate: i64, change: i64) -> i64
        requires limits { IsSound self.now }
        requires rate { unsigned_abs rate ≤ 2 ^ 28 }
        requires change { unsigned_abs change ≤ 2 ^ 40 }
        ensures value { result ≡ rate_in self.now (rate +ℤ change) }
        ensures rate { IsRate self.now result }
        ensures bound { unsigned_abs result ≤ 2 ^ 28 }
    {
        self.clamp_rate(rate + change)
    }

    pub(crate) fn clamp_rate(&self, rate: i64) -> i64
        requires { IsSound self.now }
        ensures value { result ≡ rate_in self.now rate }
        ensures rate { IsRate self.now result }
        ensures bound { unsigned_abs result ≤ 2 ^ 28 }
    {
        clamp(rate, -self.fastest, self.fastest)
    }
}
