// The tracks of another aircraft.
ghost use Rattle.std.specs.Prelude.{◌≡◌, ◌≤◌, pos, neg_ℤ, IfSome};
ghost use Rattle.acas_base.specs.Ranges.{IsWithin};
ghost use Rattle.acas_num.specs.Clamp.{LiesBetween};
ghost use Rattle.craft_view.specs.KnownTracks.{no_tracks, square_after, square_seen, tracks_after};
ghost use Rattle.square_track.specs.SquareTrack.{IsMeasured};

use acas_base::{Encounter, Profile};
use alt_track::AltTrack;
use flight::Meas;
use range_track::RangeTrack;
use square_track::{MeasuredSquare, SquareTrack, measured_square};

// The tracks of the range to one other aircraft, of its altitude, and of the square of the horizontal range.
#[derive(Clone, Copy)]
pub struct Tracks {
    pub range: RangeTrack,
    pub altitude: AltTrack,
    pub square: SquareTrack,
}

// The square of the horizontal range, by what was measured and own altitude, in ft.
fn square_seen(meas: Option<Meas>, own: i32) -> Option<MeasuredSquare>
    requires range { IfSome meas (λ m. m.range ≤ 182280) }
    requires altitude { IfSome meas (λ m. LiesBetween (neg_ℤ (pos 2000)) (pos 62000) m.alt) }
    requires own { IsWithin 100000 own }
    ensures value { result ≡ square_seen own meas }
    ensures measured { IfSome result IsMeasured }
{
    match meas {
        Some(m) => Some(measured_square(m.range, m.alt, own)),
        None => None,
    }
}

// The track of a square one second later, by what was measured and own altitude, in ft. In profile 1 nothing follows it.
fn step_square(track: &mut SquareTrack, profile: Profile, meas: Option<Meas>, own: i32)
    requires range { IfSome meas (λ m. m.range ≤ 182280) }
    requires altitude { IfSome meas (λ m. LiesBetween (neg_ℤ (pos 2000)) (pos 62000) m.alt) }
    requires own { IsWithin 100000 own }
    ensures { track.new ≡ square_after profile track.old (square_seen own meas) }
{
    match profile {
        Profile::One => {}
        Profile::Two => track.step(square_seen(meas, own)),
    }
}

impl Tracks {
    // Before the first measurement.
    pub(crate) fn new() -> Tracks
        ensures { result ≡ no_tracks }
    {
        Tracks {
            range: RangeTrack::new(),
            altitude: AltTrack::new(),
            square: SquareTrack::new(),
        }
    }

    // One second later: after a measurement, or after a miss, at this own altitude, in ft.
    pub(crate) fn step(&mut self, meas: Option<Meas>, encounter: &Encounter, own: i32)
        requires range { IfSome meas (λ m. m.range ≤ 182280) }
        requires altitude { IfSome meas (λ m. LiesBetween (neg_ℤ (pos 2000)) (pos 62000) m.alt) }
        requires own { IsWithin 100000 own }
        ensures { self.new ≡ tracks_after encounter.now own self.old meas }
    {
        self.range
            .step(meas.map(|m| m.range), encounter.range_gains());
        self.altitude
            .step(meas.map(|m| m.alt), encounter.altitude_gains());
        step_square(&mut self.square, encounter.profile(), meas, own);
    }
}
