// The range test.
ghost use Rattle.std.specs.Prelude.{◌≡◌, ◌↔◌, IsTrue, ◌<◌, ◌≤◌, ◌^◌, ◌*◌, ◌/◌, ◌-◌, ℤ, pos, unsigned_abs};
ghost use Rattle.acas_base.specs.Ranges.{IsBetween};
ghost use Rattle.acas_base.specs.declared.level.Row.{Row};
ghost use Rattle.tau_test.specs.RangeTest.{modified_tau, halves_by_modified_tau, is_range_hit, IsRangeHit};

use acas_base::Row;

/// Whether the range test holds: a slant range `r` (1/1024 ft) that changes by `rdot` (1/1024 ft/s) is within the DMOD
/// of a row, or it closes so fast that its modified tau is at most the row's tau (Munoz et al. 2013; FAA, Introduction
/// to TCAS II v7.1).
///
/// Modified tau is `(r * r - dmod * dmod) / (r * -rdot)`. It is compared exactly, so 25.02 s is more than 25 s.
pub fn range_test(r: i64, rdot: i64, row: &Row) -> bool
    requires range { IsBetween (pos 0) (pos (2 ^ 28)) r }
    requires rate { unsigned_abs rdot ≤ 2 ^ 23 }
    requires tau { IsBetween (pos 0) (pos (2 ^ 12)) row.now.tau }
    requires dmod { IsBetween (pos 0) (pos (2 ^ 28)) row.now.dmod }
    ensures { IsTrue result ↔ IsRangeHit r rdot row.now }
{
    if r <= row.dmod {
        return true;
    }
    if rdot >= 0 {
        return false;
    }
    is_soon(
        r.unsigned_abs(),
        rdot.unsigned_abs(),
        row.dmod.unsigned_abs(),
        row.tau.unsigned_abs(),
    )
}

// Whether modified tau is at most `tau`, without a division. The products are at most 2^56, 2^56 and 2^63.
fn is_soon(r: u64, rate: u64, dmod: u64, tau: u64) -> bool
    requires range { r ≤ 2 ^ 28 }
    requires beyond { dmod < r }
    requires rate { rate ≤ 2 ^ 23 }
    requires closing { 0 < rate }
    requires tau { tau ≤ 2 ^ 12 }
    ensures { IsTrue result ↔ (modified_tau r rate dmod ≤ tau) }
{
    r * r - dmod * dmod <= tau * (r * rate)
}

/// Twice modified tau, in whole half-seconds rounded down and at most twice the row's tau. It is 0 within DMOD, and
/// where the range doesn't close (this project's profile 2).
#[tactic(auto, unfolding(crate::specs::RangeTest::halves_by_modified_tau))]
pub fn halves_by_modified_tau(r: i64, rdot: i64, row: &Row) -> u16
    requires range { IsBetween (pos 0) (pos (2 ^ 28)) r }
    requires rate { unsigned_abs rdot ≤ 2 ^ 23 }
    requires tau { IsBetween (pos 0) (pos (2 ^ 12)) row.now.tau }
    requires dmod { IsBetween (pos 0) (pos (2 ^ 28)) row.now.dmod }
    ensures value { result ≡ halves_by_modified_tau r rdot row.now }
    ensures bound { result ≤ 2 * unsigned_abs row.now.tau }
{
    if rdot >= 0 || r <= row.dmod {
        return 0;
    }
    let most = 2 * row.tau.unsigned_abs();
    let halves = halves_beyond(
        r.unsigned_abs(),
        rdot.unsigned_abs(),
        row.dmod.unsigned_abs(),
    );
    most.min(halves) as u16
}

// Twice modified tau, rounded down. The products are at most 2^57 and 2^51.
fn halves_beyond(r: u64, rate: u64, dmod: u64) -> u64
    requires range { r ≤ 2 ^ 28 }
    requires beyond { dmod < r }
    requires rate { rate ≤ 2 ^ 23 }
    requires closing { 0 < rate }
    ensures { result ≡ 2 * (r * r - dmod * dmod) / (r * rate) }
{
    2 * (r * r - dmod * dmod) / (r * rate)
}

/// A law: the truth value of the range test is true exactly where the test holds.
pub fn range_test_law()
    ensures { (r rdot : ℤ) (row : Row) → IsTrue (is_range_hit r rdot row) ↔ IsRangeHit r rdot row }
{}
