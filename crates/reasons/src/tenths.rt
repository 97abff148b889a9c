// Lengths and rates in tenths.
ghost use Rattle.std.specs.Prelude.{◌≡◌, ◌≤◌, ◌^◌, unsigned_abs};
ghost use Rattle.reasons.specs.Fields.{tenths_a_minute_of, tenths_of};

use acas_num::floor_div;

/// The tenths in a number of 1/1024, rounded down.
pub(crate) fn tenths_of(value: i64) -> i32
    requires { unsigned_abs value ≤ 2 ^ 36 }
    ensures { result ≡ tenths_of value }
{
    floor_div(10 * value, 1_024) as i32
}

/// A rate in 1/1024 ft/s, in tenths of ft/min, rounded down.
pub(crate) fn tenths_a_minute_of(rate: i64) -> i32
    requires { unsigned_abs rate ≤ 2 ^ 30 }
    ensures { result ≡ tenths_a_minute_of rate }
{
    tenths_of(60 * rate)
}
