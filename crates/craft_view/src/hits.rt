// The two tests of an advisory in profile 1.
ghost use Rattle.std.specs.Prelude.{◌≡◌, ◌^◌, pos, ◌-ℤ◌};
ghost use Rattle.acas_base.specs.Ranges.{IsBetween};
ghost use Rattle.craft_view.specs.Hits.{is_hit};
ghost use Rattle.craft_view.specs.KnownTracks.{IsMotion, IsRangeEstimate};
ghost use Rattle.sens_table.specs.Levels.{IsTableRow};
ghost use Rattle.tau_test.specs.RangeTest.{is_range_hit};
ghost use Rattle.vert_test.specs.AltTest.{is_altitude_hit};

use crate::motion::{Estimate, Motion, difference};
use acas_base::Row;
use tau_test::range_test;
use vert_test::alt_test;

// Whether both tests hold with the thresholds of a row.
pub(crate) fn is_hit(motion: &Motion, row: &Row) -> bool
    requires motion { IsMotion motion.now }
    requires row { IsTableRow row.now }
    ensures { result ≡ is_hit motion.now row.now }
{
    is_range_hit(&motion.range, row) && is_altitude_hit(motion, row)
}

pub(crate) fn is_range_hit(range: &Estimate, row: &Row) -> bool
    requires range { IsRangeEstimate range.now }
    requires row { IsTableRow row.now }
    ensures { result ≡ is_range_hit range.now.est range.now.rate row.now }
{
    range_test(range.est, range.rate, row)
}

pub(crate) fn is_altitude_hit(motion: &Motion, row: &Row) -> bool
    requires motion { IsMotion motion.now }
    requires tau { IsBetween (pos 0) (pos 60) row.now.tau }
    requires zthr { IsBetween (pos 0) (pos (2 ^ 28)) row.now.zthr }
    ensures { result ≡ is_altitude_hit (motion.now.target.est -ℤ motion.now.own.est) (motion.now.target.rate -ℤ motion.now.own.rate) row.now }
{
    let height = difference(motion.target.est, motion.own.est);
    let rate = difference(motion.target.rate, motion.own.rate);
    alt_test(height, rate, row)
}
