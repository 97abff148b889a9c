// The altitude test of a resolution advisory in profile 2.
ghost use Rattle.std.specs.Prelude.{◌≡◌, ◌≤◌, ◌^◌, ◌*◌, pos, ◌+ℤ◌, ◌*ℤ◌, unsigned_abs};
ghost use Rattle.acas_base.specs.Ranges.{IsBetween};
ghost use Rattle.vert_test.specs.Passing.{are_apart, go_alike, is_slow, passes_close, twice_height};

use acas_base::Row;

// 600 ft/min, in 1/1024 ft/s.
const LEVEL_FLIGHT: u64 = 10_240;

/// The half-seconds to the closest approach: `halves` by tau, and `nearer` by modified tau, which isn't greater.
#[derive(Clone, Copy, Debug, PartialEq, Eq)]
pub struct Approach {
    pub halves: u16,
    pub nearer: u16,
}

fn go_alike(a: i64, b: i64) -> bool
    ensures { result ≡ go_alike a b }
{
    (a < 0 && b < 0) || (a > 0 && b > 0)
}

/// Whether own aircraft is slow: its vertical rate is at most 600 ft/min, or it moves the other's way and slower (FAA,
/// Introduction to TCAS II v7.1). Both rates are in 1/1024 ft/s.
pub fn is_slow(own: i64, other: i64) -> bool
    ensures { result ≡ is_slow own other }
{
    own.unsigned_abs() <= LEVEL_FLIGHT
        || (go_alike(own, other) && own.unsigned_abs() < other.unsigned_abs())
}

/// Whether the vertical miss distance is at most the ZTHR of a row at the closest approach, by tau or by modified tau,
/// or the two pass through one altitude before (ICAO Doc 9863; the details are this project's profile 2). `height` is
/// that of the other aircraft over own, in 1/1024 ft, and `rate` its rate, in 1/1024 ft/s.
#[tactic(auto, unfolding(crate::specs::Passing::passes_close))]
pub fn passes_close(height: i64, rate: i64, approach: &Approach, row: &Row) -> bool
    requires height { unsigned_abs height ≤ 2 ^ 28 }
    requires rate { unsigned_abs rate ≤ 2 ^ 23 }
    requires halves { approach.now.halves ≤ 2 ^ 12 }
    requires nearer { approach.now.nearer ≤ 2 ^ 12 }
    requires zthr { IsBetween (pos 0) (pos (2 ^ 28)) row.now.zthr }
    ensures { result ≡ passes_close height rate approach.now row.now }
{
    let last = twice_height(height, rate, approach.halves);
    let first = twice_height(height, rate, approach.nearer);
    let most = 2 * row.zthr.unsigned_abs();
    last.unsigned_abs() <= most || (first.unsigned_abs() <= most || are_apart(height, last))
}

// Twice the height after so many half-seconds.
fn twice_height(height: i64, rate: i64, halves: u16) -> i64
    requires height { unsigned_abs height ≤ 2 ^ 28 }
    requires rate { unsigned_abs rate ≤ 2 ^ 23 }
    requires halves { halves ≤ 2 ^ 12 }
    ensures { result ≡ twice_height height rate halves }
{
    sum(twice(height), product(rate, halves))
}

// For the proof: the bounds of twice a height.
fn twice(height: i64) -> i64
    requires { unsigned_abs height ≤ 2 ^ 28 }
    ensures value { result ≡ pos 2 *ℤ height }
    ensures bound { unsigned_abs result ≤ 2 ^ 29 }
{
    2 * height
}

// For the proof: the bounds of a product.
fn product(rate: i64, halves: u16) -> i64
    requires rate { unsigned_abs rate ≤ 2 ^ 23 }
    requires halves { halves ≤ 2 ^ 12 }
    ensures value { result ≡ rate *ℤ pos halves }
    ensures bound { unsigned_abs result ≤ 2 ^ 35 }
{
    rate * i64::from(halves)
}

// For the proof: the bounds of a sum.
fn sum(a: i64, b: i64) -> i64
    requires a { unsigned_abs a ≤ 2 ^ 35 }
    requires b { unsigned_abs b ≤ 2 ^ 35 }
    ensures value { result ≡ a +ℤ b }
    ensures bound { unsigned_abs result ≤ 2 ^ 36 }
{
    a + b
}

fn are_apart(a: i64, b: i64) -> bool
    ensures { result ≡ are_apart a b }
{
    (a < 0 && !(b < 0)) || (!(a < 0) && b < 0)
}
