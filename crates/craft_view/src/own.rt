// Own aircraft, and what it brings into each of its views.
ghost use Rattle.std.specs.Prelude.{◌≡◌, ◌↔◌, ◌-ℤ◌, Some, IfSome, IsTrue};
ghost use Rattle.acas_base.specs.Ranges.{IsWithin};
ghost use Rattle.craft_view.specs.Kept.{IsActive};
ghost use Rattle.craft_view.specs.Own.{own_at, resolution_row, may_climb, AreRows};
ghost use Rattle.sens_table.specs.Levels.{IsLevel, IsTableRow};

use acas_base::{CraftSpec, Encounter, Kind, Level, Profile, Row, is_active_at};
use sens_table::Above;

/// What own aircraft brings into its views: the profile; its sensitivity level; the thresholds of an RA, none where own
/// aircraft doesn't resolve; whether own aircraft may climb; whether it is high enough to descend, and to increase a
/// descent; and its height above ground, in ft.
#[derive(Clone, Copy)]
pub struct OwnAircraft {
    pub profile: Profile,
    pub level: Level,
    pub resolution: Option<Row>,
    pub climbs: bool,
    pub descends: bool,
    pub descends_faster: bool,
    pub height: i32,
}

/// Whether the aircraft `own` of an encounter is active: whether there is such an aircraft, and it advises.
pub fn is_active(encounter: &Encounter, own: u8) -> bool
    ensures { IsTrue result ↔ IsActive encounter.now own }
{
    is_active_at(encounter.crafts(), own)
}

// What follows from the profile, own kind and ceiling, the bounds that own aircraft is above, its altitude, and the
// elevation of the ground, both in ft.
pub(crate) fn own_at(
    profile: Profile,
    spec: &CraftSpec,
    above: Above,
    altitude: i32,
    elevation: i32,
) -> OwnAircraft
    requires altitude { IsWithin 100000 altitude }
    requires elevation { IsWithin 100000 elevation }
    ensures value { result ≡ own_at profile (Some spec.now.kind) spec.now.ceiling above altitude elevation }
    ensures rows { AreRows result }
{
    let level = above.level();
    OwnAircraft {
        profile,
        level,
        resolution: resolution_row(spec.kind, &level),
        climbs: may_climb(spec.ceiling, altitude),
        descends: above.descends,
        descends_faster: above.descends_faster,
        height: height_over(altitude, elevation),
    }
}

fn height_over(altitude: i32, elevation: i32) -> i32
    requires altitude { IsWithin 100000 altitude }
    requires elevation { IsWithin 100000 elevation }
    ensures { result ≡ altitude -ℤ elevation }
{
    altitude - elevation
}

fn resolution_row(kind: Kind, level: &Level) -> Option<Row>
    requires { IsLevel level.now }
    ensures value { result ≡ resolution_row (Some kind) level.now }
    ensures row { IfSome result IsTableRow }
{
    match kind {
        Kind::Ra => level.ra,
        Kind::Ta | Kind::Xpdr => None,
    }
}

fn may_climb(ceiling: Option<i32>, altitude: i32) -> bool
    ensures { result ≡ may_climb ceiling altitude }
{
    match ceiling {
        Some(highest) => altitude < highest,
        None => true,
    }
}
