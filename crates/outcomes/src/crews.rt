// What the crews of a run see and hear, and whether those of another run see and hear the same.
ghost use Rattle.std.specs.Prelude.{◌≡◌, ◌+◌, ◌*◌, ◌<◌, ◌≤◌, ◌↔◌, ℕ, List, IsTrue, length, replicate};
ghost use Rattle.acas_base.specs.declared.TheConstants.{CRAFTS};
ghost use Rattle.acas_base.specs.declared.entry.Entry.{Entry};
ghost use Rattle.advisory_report.specs.Composite.{clear};
ghost use Rattle.advisory_report.specs.declared.composite.Composite.{Composite};
ghost use Rattle.outcomes.specs.Crews.{AreAllHeard, AreCrews, AreHeard, AreKeptBelow, HearTheSame, IsHeard, kept, kept_at};

use crate::state::{crafts, cycles};
use acas_base::CRAFTS;
use advisory_report::{Aural, Composite, aural_of, has_same_word, shown};
use air_journal::AirState;
use std::marker::Model;

/// A place for each aircraft before the first cycle and after each cycle of the longest run.
const PLACES: usize = 9616;

/// What the crews of a run see and hear: what each aircraft shows after each cycle. Threads can share it by reference.
#[derive(Drop)]
pub struct Crews {
    shown: [Composite; PLACES],
}

impl Model for Crews {
    ghost use Rattle.std.specs.Prelude.{List};
    ghost use Rattle.advisory_report.specs.declared.composite.Composite.{Composite};

    ghost Value = { List Composite };

    ghost view = { λ a. a.shown };
}

/// Whether the crews of two runs see the same words and hear the same phrases, by cycle and index.
#[derive(Clone, Copy)]
pub enum Heard {
    /// They do.
    Same,
    /// Some word or phrase is another one, or comes in another cycle.
    Other,
}

// Where the composite of an aircraft after a cycle is kept.
fn kept_at(own: u8, cycle: u16) -> usize
    ensures { result ≡ kept_at own cycle }
{
    usize::from(cycle) * CRAFTS + usize::from(own)
}

fn nothing_kept() -> [Composite; PLACES]
    ensures { result ≡ replicate 9616 clear }
{
    [Composite::clear(); PLACES]
}

// Keeps what the aircraft show after a cycle.
fn keep_cycle(state: &AirState, cycle: u16, list: &mut [Composite; PLACES])
    requires in_run { cycle ≤ state.now.encounter.cycles }
    requires kept { AreKeptBelow state.now.journal (length state.now.encounter.crafts) (kept_at 0 cycle) list.old }
    ensures { AreKeptBelow state.now.journal (length state.now.encounter.crafts) (kept_at 0 (cycle + 1)) list.new }
{
    // For the proof: the run is short.
    let _cycles = cycles(state);
    for own in 0..crafts(state) {
        list[kept_at(own, cycle)] = shown(state.cells(own, cycle));
    }
}

fn keep_all(state: &AirState) -> [Composite; PLACES]
    ensures { AreKeptBelow state.now.journal (length state.now.encounter.crafts) (kept_at 0 (state.now.encounter.cycles + 1)) result }
{
    let mut list = nothing_kept();
    let count = cycles(state);
    for cycle in 0..count + 1 {
        keep_cycle(state, cycle, &mut list);
    }
    list
}

fn is_same_phrase(one: Aural, other: Aural) -> bool
    ensures { IsTrue result ↔ (one ≡ other) }
{
    one == other
}

impl Crews {
    /// What the crews of a state's journal see and hear.
    pub fn of(state: &AirState) -> Crews
        ensures { AreCrews state.now.journal (length state.now.encounter.crafts) state.now.encounter.cycles result }
    {
        state.legal_law();
        Crews {
            shown: keep_all(state),
        }
    }

    fn kept(&self, own: u8, cycle: u16) -> &Composite
        requires own { own < CRAFTS }
        requires cycle { cycle ≤ 600 }
        ensures { result.now ≡ kept self.now own cycle }
    {
        &self.shown[kept_at(own, cycle)]
    }

    // Whether the crew of an aircraft sees and hears the same after a cycle.
    fn is_heard(&self, state: &AirState, own: u8, cycle: u16) -> bool
        requires own { own < CRAFTS }
        requires begun { 1 ≤ cycle }
        requires cycle { cycle ≤ 600 }
        ensures { IsTrue result ↔ IsHeard self.now state.now.journal own cycle }
    {
        let before = shown(state.cells(own, cycle - 1));
        let now = shown(state.cells(own, cycle));
        has_same_word(self.kept(own, cycle), &now)
            && is_same_phrase(
                aural_of(self.kept(own, cycle - 1), self.kept(own, cycle)),
                aural_of(&before, &now),
            )
    }

    fn are_heard(&self, state: &AirState, cycle: u16) -> bool
        requires begun { 1 ≤ cycle }
        requires cycle { cycle ≤ 600 }
        ensures { IsTrue result ↔ AreHeard self.now state.now.journal (length state.now.encounter.crafts) cycle }
    {
        for own in 0..crafts(state) {
            if !self.is_heard(state, own, cycle) {
                return false;
            }
        }
        true
    }

    fn are_all_heard(&self, state: &AirState) -> bool
        ensures { IsTrue result ↔ AreAllHeard self.now state.now.journal (length state.now.encounter.crafts) state.now.encounter.cycles }
    {
        for earlier in 0..cycles(state) {
            if !self.are_heard(state, earlier + 1) {
                return false;
            }
        }
        true
    }

    /// Whether the crews of another run see and hear the same, by cycle and index. The run has as many aircraft and
    /// cycles as that of these crews.
    pub fn heard(&self, state: &AirState) -> Heard
        ensures { (journal : List Entry) → AreCrews journal (length state.now.encounter.crafts) state.now.encounter.cycles self.now →
            (result ≡ Heard.Same) ↔ HearTheSame journal state.now.journal (length state.now.encounter.crafts) state.now.encounter.cycles }
    {
        if self.are_all_heard(state) {
            Heard::Same
        } else {
            Heard::Other
        }
    }
}
