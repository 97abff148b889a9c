// How many seconds the tests of an advisory need.
ghost use Rattle.std.specs.Prelude.{◌≡◌, ℕ, ◌≤◌, ◌<◌, ◌*◌, ◌^◌, pos, unsigned_abs};
ghost use Rattle.acas_base.specs.Ranges.{IsBetween};
ghost use Rattle.acas_num.specs.Seconds.{need};
ghost use Rattle.sens_table.specs.Levels.{IsTableRow};
ghost use Rattle.tau_test.specs.RangeTest.{modified_tau};
ghost use Rattle.test_seconds.specs.Seconds.{altitude_seconds, range_seconds, AltitudeTestGoesBySeconds, RangeTestGoesBySeconds};

use acas_base::Row;
use acas_num::seconds_law;
use vert_test::are_opposite;

// The least whole number of seconds in which `b` a second make up `a`.
fn need(a: u64, b: u64) -> u64
    requires { 0 < b }
    ensures value { result ≡ need a b }
    ensures least { (seconds : ℕ) → a ≤ seconds * b → result ≤ seconds }
{
    seconds_law();
    a.div_ceil(b)
}

// Modified tau in whole seconds, rounded up, beyond DMOD.
fn modified_tau(r: u64, rate: u64, dmod: u64) -> u64
    requires range { r ≤ 2 ^ 28 }
    requires beyond { dmod < r }
    requires rate { rate ≤ 2 ^ 23 }
    requires closing { 0 < rate }
    ensures value { result ≡ modified_tau r rate dmod }
    ensures bound { result ≤ 2 ^ 28 }
{
    need(r * r - dmod * dmod, r * rate)
}

/// The least whole number of seconds for which the range test of a slant range `r` (1/1024 ft) that changes by `rdot`
/// (1/1024 ft/s) holds: 0 within the DMOD of a row, else modified tau; none where the range doesn't close (Munoz et al.
/// 2013).
#[tactic(auto, unfolding(crate::specs::Seconds::range_seconds))]
pub fn range_seconds(r: i64, rdot: i64, row: &Row) -> Option<u32>
    requires range { IsBetween (pos 0) (pos (2 ^ 28)) r }
    requires rate { unsigned_abs rdot ≤ 2 ^ 23 }
    requires row { IsTableRow row.now }
    ensures { result ≡ range_seconds r rdot row.now }
{
    if r <= row.dmod {
        return Some(0);
    }
    if rdot >= 0 {
        return None;
    }
    let seconds = modified_tau(
        r.unsigned_abs(),
        rdot.unsigned_abs(),
        row.dmod.unsigned_abs(),
    );
    Some(seconds as u32)
}

/// The least whole number of seconds for which the altitude test of a height `dz` (1/1024 ft) that changes by `dzdot`
/// (1/1024 ft/s) holds: 0 within the ZTHR of a row, else the time to the same altitude; none where the height doesn't
/// shrink (Munoz et al. 2013).
#[tactic(auto, unfolding(crate::specs::Seconds::altitude_seconds))]
pub fn altitude_seconds(dz: i64, dzdot: i64, row: &Row) -> Option<u32>
    requires { unsigned_abs dz ≤ 2 ^ 28 }
    ensures { result ≡ altitude_seconds dz dzdot row.now }
{
    if dz.unsigned_abs() <= row.zthr.unsigned_abs() {
        return Some(0);
    }
    if !are_opposite(dz, dzdot) {
        return None;
    }
    Some(need(dz.unsigned_abs(), dzdot.unsigned_abs()) as u32)
}

/// A law: each test of an advisory holds exactly where the seconds that it needs are within the row's tau.
pub fn test_law()
    ensures range { RangeTestGoesBySeconds }
    ensures altitude { AltitudeTestGoesBySeconds }
{}
