// The sensitivity level of an altitude.
ghost use Rattle.std.specs.Prelude.{◌≡◌, ℤ, ◌-ℤ◌};
ghost use Rattle.acas_base.specs.Ranges.{IsWithin};
ghost use Rattle.sens_table.specs.Levels;
ghost use Rattle.sens_table.specs.Levels.{level_at, IsLevel};

use crate::above::Above;
use acas_base::{Level, Row};

// Thresholds of `tau` s, and of `dmod` and `zthr` ft.
pub(crate) fn row(tau: u16, dmod: u16, zthr: u16) -> Row
    ensures { result ≡ Levels.row tau dmod zthr }
{
    Row {
        tau: i64::from(tau),
        dmod: in_units(dmod),
        zthr: in_units(zthr),
    }
}

// A level with an ALIM of `alim` ft, and its numbers of profile 2, in s and ft2/s.
pub(crate) fn level(
    sl: u8,
    ta: Row,
    ra: Option<Row>,
    alim: u16,
    slow_tau: u16,
    increase_tau: u16,
    product: u32,
) -> Level
    ensures { result ≡ Levels.level sl ta ra alim slow_tau increase_tau product }
{
    Level {
        sl,
        ta,
        ra,
        alim: in_units(alim),
        slow_tau: i64::from(slow_tau),
        increase_tau: i64::from(increase_tau),
        product: i64::from(product),
    }
}

// A number of feet, in 1/1024 ft.
fn in_units(feet: u16) -> i64
    ensures { result ≡ Levels.feet feet }
{
    i64::from(feet) * 1024
}
