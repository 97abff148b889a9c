// The modelled altitudes of all aircraft, by cycle.
ghost use Rattle.std.specs.Prelude.{◌≡◌, ◌+◌, ◌<◌, ◌≤◌, None, length, replicate};
ghost use Rattle.acas_base.specs.Ranges.{IsCycle};
ghost use Rattle.air_journal.specs.Cells.{place_of};
ghost use Rattle.journal_tables.specs.Noted.{AreNoted};
ghost use Rattle.journal_tables.specs.Places.{advises, modelled_altitude};

use crate::fields::modelled_tenths;
use acas_base::CRAFTS;
use advisory_report::{has_advice, shown};
use air_journal::AirState;
use response::ModelledFlight;
use std::marker::Model;

/// A place for each aircraft in each cycle of the longest run.
const PLACES: usize = 9600;

/// The altitudes of the aircraft of a state with the modelled response, in tenths of a foot. Flights are flown one
/// after the other, and told cycle by cycle.
#[derive(Drop)]
pub(crate) struct Altitudes<'a> {
    state: &'a AirState,
    list: [Option<i32>; PLACES],
}

impl<'a> Model for Altitudes<'a> {
    ghost use Rattle.air_journal.specs.States.{State};
    ghost use Rattle.journal_tables.specs.Noted.{AreNoted};
    ghost use Rattle.std.specs.Prelude.{length};

    ghost Value = { State };

    ghost view = { λ a. a.state.now };

    ghost invariant = { λ a. AreNoted a.state.now.encounter a.state.now.journal (length a.state.now.encounter.crafts) 0 a.list };
}

// Where the altitude of an aircraft in a cycle stands.
fn place_of(craft: u8, cycle: u16) -> usize
    requires { IsCycle cycle }
    ensures { result ≡ place_of craft cycle }
{
    usize::from(cycle - 1) * CRAFTS + usize::from(craft)
}

// Whether a commit of an aircraft shows advice.
fn advises(state: &AirState, craft: u8, cycle: u16) -> bool
    ensures { result ≡ advises state.now.journal craft cycle }
{
    has_advice(&shown(state.cells(craft, cycle)))
}

// Keeps those of an aircraft, after those of the aircraft before it.
fn note_flight(state: &AirState, craft: u8, list: &mut [Option<i32>; PLACES])
    requires craft { craft < length state.now.encounter.crafts }
    requires noted { AreNoted state.now.encounter state.now.journal craft 0 list.old }
    ensures { AreNoted state.now.encounter state.now.journal (craft + 1) 0 list.new }
{
    state.legal_law();
    let mut flight = ModelledFlight::new(state, craft);
    let mut advised = false;
    for done in 0..state.enc().cycles() {
        let cycle = done + 1;
        let Some(altitude) = flight.next() else {
            return;
        };
        let told = if advised {
            Some(modelled_tenths(altitude))
        } else {
            None
        };
        list[place_of(craft, cycle)] = told;
        advised = advised || advises(state, craft, cycle);
    }
}

fn no_altitudes() -> [Option<i32>; PLACES]
    ensures { result ≡ replicate 9600 None }
{
    [None; PLACES]
}

fn altitudes_of(state: &AirState) -> [Option<i32>; PLACES]
    ensures { AreNoted state.now.encounter state.now.journal (length state.now.encounter.crafts) 0 result }
{
    state.legal_law();
    let mut list = no_altitudes();
    for craft in 0..state.enc().crafts().len() as u8 {
        note_flight(state, craft, &mut list);
    }
    list
}

impl<'a> Altitudes<'a> {
    /// Those of a state.
    pub fn new(state: &'a AirState) -> Altitudes<'a>
        ensures { result ≡ state.now }
    {
        Altitudes {
            state,
            list: altitudes_of(state),
        }
    }

    /// The state.
    pub fn state(&self) -> &'a AirState
        ensures { result.now ≡ self.now }
    {
        self.state
    }

    /// That of an aircraft in a cycle; none up to its first cycle with advice, that one included.
    pub fn altitude(&self, craft: u8, cycle: u16) -> Option<i32>
        requires craft { craft < length self.now.encounter.crafts }
        requires begun { 1 ≤ cycle }
        requires in_run { cycle ≤ self.now.encounter.cycles }
        ensures { result ≡ modelled_altitude self.now.encounter self.now.journal craft cycle }
    {
        self.state.legal_law();
        self.list[place_of(craft, cycle)]
    }
}
