// What an aircraft sees of another one in a cycle.
ghost use Rattle.std.specs.Prelude.{◌≡◌, ◌≢◌, ◌+◌, ◌<◌, ◌≤◌, ◌^◌, IfSome, length, unsigned_abs};
ghost use Rattle.craft_view.specs.Kept.{Belongs};
ghost use Rattle.craft_view.specs.KnownTracks.{IsMotion};
ghost use Rattle.craft_view.specs.Own.{AreRows};
ghost use Rattle.craft_view.specs.Sight.{sight_of};
ghost use Rattle.craft_view.specs.Views.{picture_of};
ghost use Rattle.reasons.specs.Bounds.{IsModerate, IsOwnSide, IsSeen};
ghost use Rattle.reasons.specs.Seen.{own_side_of, seen_of};

use acas_base::{Picture, Rank, View};
use air_journal::rank;
use craft_view::{Craft, Motion, OwnAircraft};
use flight::{Meas, Places};

// Own altitude in ft, the sensitivity level, and what own aircraft brings into its views.
#[derive(Clone, Copy)]
pub struct OwnSide {
    pub altitude: i32,
    pub level: u8,
    pub aircraft: OwnAircraft,
}

// The rank against another aircraft, what was measured of it in the newest cycle, own side, what the tracks say where
// the pair is tested, and the view.
#[derive(Clone, Copy)]
pub struct Seen {
    pub rank: Rank,
    pub reply: Option<Meas>,
    pub own: OwnSide,
    pub motion: Option<Motion>,
    pub view: View,
}

/// What own aircraft measures of itself in the cycle of its newest look, and what follows from it.
pub(crate) fn own_side_of(places: &Places, craft: &Craft) -> OwnSide
    requires belongs { Belongs places.now.encounter craft.now }
    requires begun { 1 ≤ craft.now.cycle }
    requires present { places.now.cycle ≡ craft.now.cycle }
    ensures value { result ≡ own_side_of (sight_of places.now.encounter craft.now.own craft.now.cycle) }
    ensures bounds { IsOwnSide result }
{
    let aircraft = craft.own_aircraft(places);
    OwnSide {
        altitude: places.own_altitude(craft.own()),
        level: aircraft.level.sl,
        aircraft,
    }
}

/// What own aircraft sees of another one in the cycle of its newest picture.
pub(crate) fn seen_of(
    places: &Places,
    craft: &Craft,
    picture: &Picture,
    own: &OwnSide,
    other: u8,
) -> Seen
    requires belongs { Belongs places.now.encounter craft.now }
    requires begun { 1 ≤ craft.now.cycle }
    requires present { places.now.cycle ≡ craft.now.cycle }
    requires picture { picture.now ≡ picture_of places.now.encounter craft.now.own craft.now.cycle }
    requires own { own.now ≡ own_side_of (sight_of places.now.encounter craft.now.own craft.now.cycle) }
    requires own_bounds { IsOwnSide own.now }
    requires other { other < length places.now.encounter.crafts }
    requires apart { craft.now.own ≢ other }
    ensures value { result ≡ seen_of (sight_of places.now.encounter craft.now.own craft.now.cycle) other }
    ensures bounds { IsSeen result }
{
    let encounter = places.encounter();
    // No encounter has more than 16 aircraft.
    encounter.valid_law();
    Seen {
        rank: rank(encounter, craft.own(), other),
        reply: places.measure(craft.own(), other),
        own: *own,
        motion: craft.motion_of(other),
        view: picture.views[usize::from(other)],
    }
}
