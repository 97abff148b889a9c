// Roundings, and where an aircraft can go on to.
ghost use Rattle.std.specs.Prelude.{◌≡◌, ◌↔◌, ◌≤◌, ◌^◌, pos, ◌+ℤ◌, ◌*ℤ◌, unsigned_abs, IsTrue};
ghost use Rattle.acas_base.specs.Ranges.{IsBetween};
ghost use Rattle.flight.specs.Bounds.{IsReachable};
ghost use Rattle.flight.specs.Inside.{IsInBox};
ghost use Rattle.leg_rows.specs.Rows.{AreLegRates, change};
ghost use Rattle.followed_advice.specs.Following.{CanGoOn, sixtieths};

use acas_num::floor_div;
use flight::Place;
use leg_rows::first_excess;

// For the proof: an altitude in 1/2048 ft, in 1/122880 ft and raised by half of 1/60 ft.
fn raised(altitude: i64) -> i64
    requires { unsigned_abs altitude ≤ 2 ^ 30 }
    ensures { result ≡ (pos 60 *ℤ altitude) +ℤ pos 1024 }
{
    60 * altitude + 1024
}

// An altitude in 1/2048 ft, as the nearest multiple of 1/60 ft, and the greater one where two are as near.
#[tactic(auto, unfolding(crate::specs::Following::sixtieths))]
pub(crate) fn sixtieths(altitude: i64) -> i64
    requires { unsigned_abs altitude ≤ 2 ^ 30 }
    ensures { result ≡ sixtieths altitude }
{
    floor_div(raised(altitude), 2048)
}

fn is_between(low: i64, value: i64, high: i64) -> bool
    ensures { IsTrue result ↔ IsBetween low high value }
{
    low <= value && value <= high
}

// Whether a place is in the box.
fn is_in_box(place: &Place) -> bool
    ensures { IsTrue result ↔ IsInBox place.now }
{
    is_between(-1_000_000, place.x, 1_000_000)
        && is_between(-1_000_000, place.y, 1_000_000)
        && is_between(-60_000, place.z, 3_600_000)
}

// Whether a leg can lead from one place to another one in a second.
fn is_near(here: &Place, there: &Place) -> bool
    requires here { IsReachable here.now }
    requires there { IsReachable there.now }
    ensures { IsTrue result ↔ AreLegRates (change here.now there.now) }
{
    match first_excess(&[*here, *there]) {
        Some(_) => false,
        None => true,
    }
}

// Whether an aircraft can go on to a place in a second.
pub(crate) fn can_go_on(here: &Place, there: &Place) -> bool
    requires { IsReachable here.now }
    ensures { IsTrue result ↔ CanGoOn here.now there.now }
{
    if !is_in_box(there) {
        return false;
    }
    is_near(here, there)
}
