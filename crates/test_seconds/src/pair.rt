// How many seconds the tests of a pair need.
ghost use Rattle.std.specs.Prelude.{◌≡◌, ◌≤◌, ◌^◌, ◌-ℤ◌, IfSome, option_map, unsigned_abs};
ghost use Rattle.craft_view.specs.KnownTracks.{IsMotion};
ghost use Rattle.craft_view.specs.Own.{AreRows};
ghost use Rattle.sens_table.specs.Levels.{IsTableRow};
ghost use Rattle.test_seconds.specs.Pair.{pair_seconds, seconds_of};

use crate::seconds::{altitude_seconds, range_seconds};
use acas_base::Row;
use craft_view::{Motion, OwnAircraft};

/// What the tests of an advisory need with the thresholds of a row.
#[derive(Clone, Copy)]
pub struct TestSeconds {
    /// The least whole seconds of the range test; none where the range doesn't close.
    pub range: Option<u32>,
    /// The least whole seconds of the altitude test; none where the altitude difference doesn't close.
    pub altitude: Option<u32>,
    /// Tau of the row, in s: a test holds where its seconds are no more.
    pub tau: u16,
}

/// What the tests of a pair need.
#[derive(Clone, Copy)]
pub struct PairSeconds {
    /// What a traffic advisory needs.
    pub ta: TestSeconds,
    /// What a resolution advisory needs, where own aircraft resolves.
    pub ra: Option<TestSeconds>,
}

/// How far the other aircraft is above own one, by the tracks.
pub fn height_of(motion: &Motion) -> i64
    requires { IsMotion motion.now }
    ensures value { result ≡ motion.now.target.est -ℤ motion.now.own.est }
    ensures bound { unsigned_abs result ≤ 2 ^ 28 }
{
    motion.target.est - motion.own.est
}

/// How fast that grows.
pub fn height_rate_of(motion: &Motion) -> i64
    requires { IsMotion motion.now }
    ensures value { result ≡ motion.now.target.rate -ℤ motion.now.own.rate }
    ensures bound { unsigned_abs result ≤ 2 ^ 28 }
{
    motion.target.rate - motion.own.rate
}

// What both tests need with the thresholds of a row.
#[tactic(auto, unfolding(crate::specs::Pair::seconds_of))]
fn seconds_of(motion: &Motion, row: &Row) -> TestSeconds
    requires motion { IsMotion motion.now }
    requires row { IsTableRow row.now }
    ensures { result ≡ seconds_of motion.now row.now }
{
    TestSeconds {
        range: range_seconds(motion.range.est, motion.range.rate, row),
        altitude: altitude_seconds(height_of(motion), height_rate_of(motion), row),
        tau: row.tau.unsigned_abs() as u16,
    }
}

// The same, where there is a row.
fn seconds_if_any(motion: &Motion, row: &Option<Row>) -> Option<TestSeconds>
    requires motion { IsMotion motion.now }
    requires row { IfSome row.now IsTableRow }
    ensures { result ≡ option_map (seconds_of motion.now) row.now }
{
    match row {
        None => None,
        Some(row) => Some(seconds_of(motion, row)),
    }
}

/// What the tests of a pair need, by what the tracks say where they run, with the thresholds of own aircraft.
pub fn pair_seconds(own: &OwnAircraft, motion: &Motion) -> PairSeconds
    requires rows { AreRows own.now }
    requires motion { IsMotion motion.now }
    ensures { result ≡ pair_seconds own.now motion.now }
{
    PairSeconds {
        ta: seconds_of(motion, &own.level.ta),
        ra: seconds_if_any(motion, &own.resolution),
    }
}
