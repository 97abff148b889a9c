// An aircraft that looks at the others, second by second.
ghost use Rattle.std.specs.Prelude.{◌≡◌, ℕ, ◌+◌, ◌<◌, ◌≤◌, length, option_copied, IfSome, map};
ghost use Rattle.std.specs.List.{range_with_len};
ghost use Rattle.acas_base.specs.declared.TheConstants.{CRAFTS};
ghost use Rattle.craft_view.specs.Kept.{Belongs, Kept, IsActive, altitude_kept, kept_of};
ghost use Rattle.craft_view.specs.KnownTracks.{IsMotion, motion_of};
ghost use Rattle.craft_view.specs.Own.{own_of, AreRows};
ghost use Rattle.craft_view.specs.Sight.{sight_of};
ghost use Rattle.craft_view.specs.Views.{SayNothingFrom, asks_for, picture_after, picture_of, shown, view_of};
ghost use Rattle.flight.specs.Inside.{IsInside};

use crate::motion::{Motion, motion_of};
use crate::others::{is_other, step_tracks};
use crate::own::{OwnAircraft, own_at};
use crate::pair::{no_picture, no_view, put_no_view, put_view};
use crate::tracks::Tracks;
use acas_base::{CRAFTS, Cells, Encounter, Picture, View};
use acas_num::TrackState;
use alt_track::AltTrack;
use flight::Places;
use sens_table::Above;
use std::marker::Model;

/// An active aircraft, which looks at the others once in each cycle of an encounter. It keeps the
/// bounds of levels that it is above, a track of its own altitude, and of each other aircraft its tracks.
#[derive(Drop)]
pub struct Craft {
    own: u8,
    cycle: u16,
    above: Above,
    altitude: AltTrack,
    tracks: [Tracks; CRAFTS],
}

impl Model for Craft {
    ghost use Rattle.craft_view.specs.Kept.{Kept};

    ghost Value = { Kept };

    ghost view = { λ c. record { own = c.own; cycle = c.cycle; above = c.above; altitude = c.altitude; tracks = c.tracks } };
}

impl Craft {
    /// The aircraft `own` of an encounter, before its first look. It has to be active, as
    /// [`crate::is_active`] tells, and the encounter inside the box, as `flight::inside` tells.
    pub fn new(encounter: &Encounter, own: u8) -> Craft
        requires active { IsActive encounter.now own }
        requires inside { IsInside encounter.now }
        ensures own { result.own ≡ own }
        ensures cycle { result.cycle ≡ 0 }
        ensures belongs { Belongs encounter.now result }
    {
        Craft {
            own,
            cycle: 0,
            above: Above::none(),
            altitude: AltTrack::new(),
            tracks: [Tracks::new(); CRAFTS],
        }
    }

    /// The index of the aircraft.
    pub fn own(&self) -> u8
        ensures { result ≡ self.now.own }
    {
        self.own
    }

    /// The number of looks made so far, and so the cycle of the newest picture.
    pub fn cycle(&self) -> u16
        ensures { result ≡ self.now.cycle }
    {
        self.cycle
    }

    /// The picture of the next cycle of the encounter to which the craft belongs. Each track goes on
    /// by what is measured in that cycle alone.
    pub fn look(&mut self, encounter: &Encounter) -> Picture
        requires belongs { Belongs encounter.now self.old }
        requires left { self.old.cycle < encounter.now.cycles }
        ensures picture { result ≡ picture_of encounter.now self.old.own (self.old.cycle + 1) }
        ensures own { self.new.own ≡ self.old.own }
        ensures cycle { self.new.cycle ≡ self.old.cycle + 1 }
        ensures belongs { Belongs encounter.now self.new }
    {
        // No run is longer than 600 cycles.
        encounter.valid_law();
        let places = Places::new(encounter, self.cycle + 1);
        self.look_among(&places)
    }

    /// Does the same as [`Craft::look`], from the places in that next cycle. All aircraft that look in a cycle can
    /// share them.
    pub fn look_among(&mut self, places: &Places) -> Picture
        requires belongs { Belongs places.now.encounter self.old }
        requires left { self.old.cycle < places.now.encounter.cycles }
        requires next { places.now.cycle ≡ self.old.cycle + 1 }
        ensures picture { result ≡ picture_of places.now.encounter self.old.own (self.old.cycle + 1) }
        ensures own { self.new.own ≡ self.old.own }
        ensures cycle { self.new.cycle ≡ self.old.cycle + 1 }
        ensures belongs { Belongs places.now.encounter self.new }
    {
        let mut picture = no_picture();
        self.look_into(places, None, &mut picture);
        picture
    }

    /// Does the same as [`Craft::look_among`], and puts each view where an earlier one was, so that none is moved. Past
    /// the last aircraft the views have to say nothing already, as those of each picture of the same encounter do.
    ///
    /// `before` has the cells of the aircraft's last commit, where the picture is for its next one alone. Then the
    /// separations in a view are zeros, unless there is a threat or these cells have an advisory against that aircraft:
    /// no rule asks for them.
    pub fn look_into(&mut self, places: &Places, before: Option<&Cells>, picture: &mut Picture)
        requires belongs { Belongs places.now.encounter self.old }
        requires left { self.old.cycle < places.now.encounter.cycles }
        requires next { places.now.cycle ≡ self.old.cycle + 1 }
        requires rest { SayNothingFrom (length places.now.encounter.crafts) picture.old.views }
        ensures picture { picture.new ≡ picture_after (option_copied before.entry) places.now.encounter self.old.own (self.old.cycle + 1) }
        ensures own { self.new.own ≡ self.old.own }
        ensures cycle { self.new.cycle ≡ self.old.cycle + 1 }
        ensures belongs { Belongs places.now.encounter self.new }
    {
        self.step(places);
        self.put_picture(places, before, picture);
    }

    /// Does the same as [`Craft::look_among`], and gives the view of the aircraft at an index alone.
    pub fn look_at(&mut self, places: &Places, target: u8) -> View
        requires belongs { Belongs places.now.encounter self.old }
        requires left { self.old.cycle < places.now.encounter.cycles }
        requires next { places.now.cycle ≡ self.old.cycle + 1 }
        requires target { target < CRAFTS }
        ensures view { result ≡ view_of places.now.encounter self.old.own target (self.old.cycle + 1) }
        ensures own { self.new.own ≡ self.old.own }
        ensures cycle { self.new.cycle ≡ self.old.cycle + 1 }
        ensures belongs { Belongs places.now.encounter self.new }
    {
        self.step(places);
        self.view_of(places, target)
    }

    // The view of the aircraft at an index in the present cycle.
    fn view_of(&self, places: &Places, target: u8) -> View
        requires belongs { Belongs places.now.encounter self.now }
        requires begun { 1 ≤ self.now.cycle }
        requires present { places.now.cycle ≡ self.now.cycle }
        requires target { target < CRAFTS }
        ensures { result ≡ view_of places.now.encounter self.now.own target self.now.cycle }
    {
        let encounter = places.encounter();
        // No encounter has more than 16 aircraft.
        encounter.valid_law();
        let own = self.own_aircraft(places);
        let mut view = no_view();
        if usize::from(target) < encounter.crafts().len() {
            self.put_view(encounter, &own, target, None, &mut view);
        }
        view
    }

    // Each track goes on by what is measured in the next cycle.
    fn step(&mut self, places: &Places)
        requires belongs { Belongs places.now.encounter self.old }
        requires left { self.old.cycle < places.now.encounter.cycles }
        requires next { places.now.cycle ≡ self.old.cycle + 1 }
        ensures own { self.new.own ≡ self.old.own }
        ensures cycle { self.new.cycle ≡ self.old.cycle + 1 }
        ensures belongs { Belongs places.now.encounter self.new }
    {
        let encounter = places.encounter();
        // No run is longer than 600 cycles.
        encounter.valid_law();
        let own = self.own;
        let altitude = places.own_altitude(own);
        self.altitude
            .step(Some(altitude), encounter.altitude_gains());
        step_tracks(&mut self.tracks, places, own, altitude);
        self.above = self.above.go_on(self.cycle, encounter, altitude);
        self.cycle += 1;
    }

    /// What own aircraft brings into its views in the cycle of its newest look, of which these are the places.
    pub fn own_aircraft(&self, places: &Places) -> OwnAircraft
        requires belongs { Belongs places.now.encounter self.now }
        requires begun { 1 ≤ self.now.cycle }
        requires present { places.now.cycle ≡ self.now.cycle }
        ensures value { result ≡ own_of (sight_of places.now.encounter self.now.own self.now.cycle) }
        ensures rows { AreRows result }
    {
        let encounter = places.encounter();
        // For the proof: the elevation is in its range.
        encounter.valid_law();
        let spec = &encounter.crafts()[usize::from(self.own)];
        let altitude = places.own_altitude(self.own);
        own_at(
            encounter.profile(),
            spec,
            self.above,
            altitude,
            encounter.ground(),
        )
    }

    // Puts the picture of the present cycle.
    #[tactic(auto, unfolding(crate::specs::Views::picture_after))]
    fn put_picture(&self, places: &Places, before: Option<&Cells>, picture: &mut Picture)
        requires belongs { Belongs places.now.encounter self.now }
        requires begun { 1 ≤ self.now.cycle }
        requires present { places.now.cycle ≡ self.now.cycle }
        requires rest { SayNothingFrom (length places.now.encounter.crafts) picture.old.views }
        ensures { picture.new ≡ picture_after (option_copied before.entry) places.now.encounter self.now.own self.now.cycle }
    {
        let own = self.own_aircraft(places);
        picture.own = self.own;
        picture.cycle = self.cycle;
        self.put_views(places.encounter(), &own, before, &mut picture.views);
    }

    // Puts the view of each aircraft in the present cycle at its place. Past the last one the views say nothing
    // already.
    fn put_views(
        &self,
        encounter: &Encounter,
        own: &OwnAircraft,
        before: Option<&Cells>,
        views: &mut [View; CRAFTS],
    )
        requires belongs { Belongs encounter.now self.now }
        requires own { own.now ≡ own_of (sight_of encounter.now self.now.own self.now.cycle) }
        requires rows { AreRows own.now }
        requires rest { SayNothingFrom (length encounter.now.crafts) views.old }
        ensures { views.new ≡ map (λ target. shown (asks_for (option_copied before.entry) target) (view_of encounter.now self.now.own target self.now.cycle)) (range_with_len 0 CRAFTS) }
    {
        // No encounter has more than 16 aircraft.
        encounter.valid_law();
        for target in 0..encounter.crafts().len() {
            self.put_view(encounter, own, target as u8, before, &mut views[target]);
        }
    }

    // Puts the view of the aircraft at an index in the present cycle. It is inlined where an aircraft looks at all others.
    #[inline(always)]
    fn put_view(
        &self,
        encounter: &Encounter,
        own: &OwnAircraft,
        target: u8,
        before: Option<&Cells>,
        view: &mut View,
    )
        requires belongs { Belongs encounter.now self.now }
        requires own { own.now ≡ own_of (sight_of encounter.now self.now.own self.now.cycle) }
        requires rows { AreRows own.now }
        requires target { target < CRAFTS }
        requires there { target < length encounter.now.crafts }
        ensures { view.new ≡ shown (asks_for (option_copied before.entry) target) (view_of encounter.now self.now.own target self.now.cycle) }
    {
        if is_other(encounter, self.own, target) {
            put_view(
                own,
                &self.altitude,
                &self.tracks[usize::from(target)],
                before,
                target,
                view,
            );
        } else {
            put_no_view(view);
        }
    }

    /// The state of the track of the range to an aircraft: estimate in 1/1024 ft, rate in 1/1024 ft/s.
    /// It is empty in the own place, and where there is no aircraft.
    pub fn range_of(&self, target: u8) -> TrackState
        requires { target < CRAFTS }
        ensures { result ≡ (kept_of self.now target).range }
    {
        self.tracks[usize::from(target)].range.state()
    }

    /// The state of the track of an aircraft's altitude, and in the own place the state of the track of own altitude:
    /// estimate in 1/1024 ft, rate in 1/1024 ft/s. It is empty where there is no aircraft.
    pub fn altitude_of(&self, target: u8) -> TrackState
        requires { target < CRAFTS }
        ensures { result ≡ altitude_kept self.now target }
    {
        if target == self.own {
            return self.altitude.state();
        }
        self.tracks[usize::from(target)].altitude.state()
    }

    /// What the tracks of the newest cycle say of an aircraft. It is none where the pair isn't tested: where one of the
    /// tracks doesn't run.
    pub fn motion_of(&self, target: u8) -> Option<Motion>
        requires { target < CRAFTS }
        ensures value { result ≡ motion_of self.now.altitude (kept_of self.now target) }
        ensures bounds { IfSome result IsMotion }
    {
        motion_of(&self.altitude, &self.tracks[usize::from(target)])
    }
}
