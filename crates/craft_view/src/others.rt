// The other aircraft of an encounter, and their tracks.
ghost use Rattle.std.specs.Prelude.{◌≡◌, ℕ, ◌<◌, ◌≤◌, length, is_some, slice_index_or};
ghost use Rattle.acas_base.specs.Ranges.{IsWithin};
ghost use Rattle.acas_base.specs.declared.TheConstants.{CRAFTS};
ghost use Rattle.craft_view.specs.KnownTracks.{no_tracks, tracks_then};
ghost use Rattle.craft_view.specs.Sight.{other_craft};
ghost use Rattle.flight.specs.Inside.{IsInside};
ghost use Rattle.flight.specs.Measurement.{own_altitude};

use crate::tracks::Tracks;
use acas_base::{CRAFTS, Encounter};
use flight::Places;

// Whether the aircraft at an index is another one. That there is one, its callers know.
pub(crate) fn is_other(encounter: &Encounter, own: u8, target: u8) -> bool
    requires { target < length encounter.now.crafts }
    ensures { result ≡ is_some (other_craft encounter.now own target) }
{
    target != own
}

// The tracks of all aircraft one second later. `altitude` is own altitude then, in ft.
pub(crate) fn step_tracks(tracks: &mut [Tracks; CRAFTS], places: &Places, own: u8, altitude: i32)
    requires own { own < length places.now.encounter.crafts }
    requires altitude { altitude ≡ own_altitude places.now.encounter own places.now.cycle }
    requires bound { IsWithin 100000 altitude }
    requires inside { IsInside places.now.encounter }
    requires run { places.now.cycle ≤ places.now.encounter.cycles }
    ensures { (index : ℕ) → index < CRAFTS → slice_index_or tracks.new index no_tracks ≡ tracks_then places.now.encounter own places.now.cycle index (slice_index_or tracks.old index no_tracks) }
{
    let encounter = places.encounter();
    // No encounter has more than 16 aircraft.
    encounter.valid_law();
    for target in 0..encounter.crafts().len() {
        step_place(&mut tracks[target], places, own, target as u8, altitude);
    }
}

// The tracks of one place one second later: a measurement or a miss goes into those of another aircraft.
fn step_place(tracks: &mut Tracks, places: &Places, own: u8, target: u8, altitude: i32)
    requires own { own < length places.now.encounter.crafts }
    requires target { target < length places.now.encounter.crafts }
    requires altitude { altitude ≡ own_altitude places.now.encounter own places.now.cycle }
    requires bound { IsWithin 100000 altitude }
    requires inside { IsInside places.now.encounter }
    requires run { places.now.cycle ≤ places.now.encounter.cycles }
    ensures { tracks.new ≡ tracks_then places.now.encounter own places.now.cycle target tracks.old }
{
    let encounter = places.encounter();
    if is_other(encounter, own, target) {
        tracks.step(places.measure(own, target), encounter, altitude);
    }
}
