// Altitudes in tenths of a foot.
ghost use Rattle.std.specs.Prelude.{◌≡◌, ◌≤◌, ◌^◌, unsigned_abs};
ghost use Rattle.journal_tables.specs.Fields.{modelled_tenths, planned_tenths};

use acas_num::floor_div;

/// A planned altitude in 1/60 ft, in tenths of a foot, rounded down.
pub(crate) fn planned_tenths(z: i64) -> i32
    requires { unsigned_abs z ≤ 2 ^ 30 }
    ensures { result ≡ planned_tenths z }
{
    floor_div(10 * z, 60) as i32
}

/// A modelled altitude in 1/2048 ft, in tenths of a foot, rounded down.
pub(crate) fn modelled_tenths(altitude: i64) -> i32
    requires { unsigned_abs altitude ≤ 2 ^ 30 }
    ensures { result ≡ modelled_tenths altitude }
{
    floor_div(10 * altitude, 2048) as i32
}
