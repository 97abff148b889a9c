// What is kept of a recording, so that its page is written in few passes.
ghost use Rattle.std.specs.Prelude.{◌≡◌, ◌<◌, ◌≤◌, IfSome, length, slice_get};
ghost use Rattle.acas_base.specs.declared.TheConstants.{CRAFTS};
ghost use Rattle.air_journal.specs.Airs.{air_of};
ghost use Rattle.summary.specs.Kept.{IsPage, IsStanding};
ghost use Rattle.summary.specs.Lines.{above_plan};
ghost use Rattle.summary.specs.Pairs.{place_in_order};
ghost use Rattle.summary.specs.Stretches.{IsInRun, starts_of};

use crate::above::{PLACES, above_plan, place_of};
use crate::rows::{Row, Start, rows_of};
use crate::standing::{Standing, places_of, standings_of};
use acas_base::{PAIRS, pair_of};
use air_journal::AirState;
use std::marker::Model;

/// A recording: where the stretches begin, how the pairs stand and in which order they come, and by how much the
/// modelled flights are above the planned ones. It has a fixed size.
#[derive(Drop)]
pub(crate) struct Page<'a> {
    state: &'a AirState,
    rows: [Row; PAIRS],
    standings: [Option<Standing>; PAIRS],
    places: [u16; PAIRS],
    above: [i32; PLACES],
}

impl<'a> Model for Page<'a> {
    ghost use Rattle.air_journal.specs.States.{State};
    ghost use Rattle.summary.specs.Kept.{IsPage, IsStanding};

    ghost Value = { State };

    ghost view = { λ p. p.state.now };

    ghost invariant = { λ p. IsPage p.state.now.encounter p.state.now.journal p.rows p.standings p.places p.above };
}

impl<'a> Page<'a> {
    /// That of a state.
    pub fn new(state: &'a AirState) -> Page<'a>
        ensures { result ≡ state.now }
    {
        let rows = rows_of(state);
        let standings = standings_of(state, &rows);
        let places = places_of(state, &standings);
        Page {
            state,
            rows,
            standings,
            places,
            above: above_plan(state),
        }
    }

    /// The state.
    pub fn state(&self) -> &'a AirState
        ensures { result.now ≡ self.now }
    {
        self.state
    }

    /// How many stretches an aircraft has against another one.
    pub fn count(&self, own: u8, other: u8) -> u16
        requires own { own < CRAFTS }
        requires other { other < CRAFTS }
        ensures { result ≡ length (starts_of (air_of self.now.encounter) self.now.journal own other) }
    {
        self.rows[pair_of(own, other)].count
    }

    /// Where one of the first sixteen begins.
    pub fn start(&self, own: u8, other: u8, place: usize) -> Option<Start>
        requires own { own < CRAFTS }
        requires other { other < CRAFTS }
        requires place { place < 16 }
        ensures value { result ≡ slice_get (starts_of (air_of self.now.encounter) self.now.journal own other) place }
        ensures run { IfSome result (IsInRun self.now.encounter.cycles) }
    {
        self.state.legal_law();
        self.rows[pair_of(own, other)].first[place]
    }

    /// How the pair with a number stands; none where no two aircraft have it.
    pub fn standing(&self, pair: usize) -> Option<Standing>
        requires { pair < 256 }
        ensures { IsStanding self.now.encounter self.now.journal pair result }
    {
        self.standings[pair]
    }

    /// Its place in the order.
    pub fn place(&self, pair: usize) -> u16
        requires { pair < 256 }
        ensures { result ≡ place_in_order self.now.encounter self.now.journal pair }
    {
        self.places[pair]
    }

    /// By how much the modelled altitude of an aircraft in a cycle is above the planned one, in 1/2048 ft.
    pub fn above(&self, craft: u8, cycle: u16) -> i32
        requires craft { craft < length self.now.encounter.crafts }
        requires begun { 1 ≤ cycle }
        requires in_run { cycle ≤ self.now.encounter.cycles }
        ensures { result ≡ above_plan self.now.encounter self.now.journal craft cycle }
    {
        self.state.legal_law();
        self.above[place_of(craft, cycle)]
    }
}
