// The altitude test.
ghost use Rattle.std.specs.Prelude.{◌≡◌, ◌↔◌, IsTrue, ◌<◌, ◌≤◌, ◌^◌, ℤ, pos, unsigned_abs};
ghost use Rattle.acas_base.specs.Ranges.{IsBetween};
ghost use Rattle.acas_num.specs.Seconds.{need};
ghost use Rattle.acas_base.specs.declared.level.Row.{Row};
ghost use Rattle.vert_test.specs.AltTest.{IsAltHit, are_opposite, is_altitude_hit};

use acas_base::Row;

/// Whether the altitude test holds: a height `dz` of the other aircraft over own aircraft (1/1024 ft) that changes by
/// `dzdot` (1/1024 ft/s) is within the ZTHR of a row, or it shrinks so fast that the time to the same altitude is at
/// most the row's tau (FAA, Introduction to TCAS II v7.1).
///
/// The time is compared exactly, so a little more than 25 s is more than 25 s.
pub fn alt_test(dz: i64, dzdot: i64, row: &Row) -> bool
    requires height { unsigned_abs dz ≤ 2 ^ 28 }
    requires rate { unsigned_abs dzdot ≤ 2 ^ 23 }
    requires tau { IsBetween (pos 0) (pos (2 ^ 12)) row.now.tau }
    requires zthr { IsBetween (pos 0) (pos (2 ^ 28)) row.now.zthr }
    ensures { IsTrue result ↔ IsAltHit dz dzdot row.now }
{
    let height = dz.unsigned_abs();
    if height <= row.zthr.unsigned_abs() {
        return true;
    }
    if are_opposite(dz, dzdot) {
        is_soon(height, dzdot.unsigned_abs(), row.tau.unsigned_abs())
    } else {
        false
    }
}

/// Whether one number is below zero and the other above it.
pub fn are_opposite(a: i64, b: i64) -> bool
    ensures { result ≡ are_opposite a b }
{
    (a < 0 && b > 0) || (a > 0 && b < 0)
}

// Whether a rate of `rate` a second covers `height` within `tau` s, without a division. The product is at most 2^35.
fn is_soon(height: u64, rate: u64, tau: u64) -> bool
    requires rate { rate ≤ 2 ^ 23 }
    requires converging { 0 < rate }
    requires tau { tau ≤ 2 ^ 12 }
    ensures { IsTrue result ↔ (need height rate ≤ tau) }
{
    height <= tau * rate
}

/// A law: the truth value of the altitude test is true exactly where the test holds.
pub fn alt_test_law()
    ensures { (dz dzdot : ℤ) (row : Row) → IsTrue (is_altitude_hit dz dzdot row) ↔ IsAltHit dz dzdot row }
{}
