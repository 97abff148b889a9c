// The state of the air.
ghost use Rattle.std.specs.Prelude.{◌≡◌, ◌↔◌, ◌<◌, ◌≤◌, [], length, reverse, slice_get, option_copied, option_map, IfOk, IsTrue, MatchBool, List};
ghost use Rattle.acas_base.specs.Encounter.{IsEncounter};
ghost use Rattle.air_journal.specs.Airs.{air_of};
ghost use Rattle.air_journal.specs.Cells.{commit_cells};
ghost use Rattle.air_journal.specs.EntryRefs.{entry_of};
ghost use Rattle.air_journal.specs.Kept.{waiting as waiting_of};
ghost use Rattle.air_journal.specs.Queues.{IsQueue};
ghost use Rattle.air_rules.specs.Journal.{commits};
ghost use Rattle.air_rules.specs.Rules.{IsComplete, IsDone, IsLegal};
ghost use Rattle.flight.specs.Inside.{IsInside};

use crate::crafts::{count_of, is_active, pages_for};
use crate::entry_ref::EntryRef;
use crate::journal::Journal;
use crate::kept::Waiting;
use crate::owing::first_owed;
use crate::tables::Tables;
use crate::usual::UsualFates;
use acas_base::{CRAFTS, Cells, Encounter, Entry};
use std::alloc::{AllocError, Global};
use std::marker::Model;

/// The state of the air: an encounter inside the box, and a legal journal of it. It takes all its memory
/// at the start.
#[derive(Drop)]
pub struct AirState {
    pub(crate) encounter: Encounter,
    pub(crate) usual: UsualFates,
    pub(crate) journal: Journal,
    pub(crate) tables: Tables,
}

impl Model for AirState {
    ghost use Rattle.air_journal.specs.States.{IsState, State};

    ghost Value = { State };

    ghost view = { λ a. record { encounter = a.encounter; journal = a.journal.entries } };

    ghost invariant = { λ a. IsState a.encounter a.usual a.journal a.tables };
}

impl AirState {
    /// An equal encounter and the empty journal, with the memory of the whole run. The encounter has to be
    /// inside the box, as `flight::inside` tells.
    pub fn new(alloc: Global, enc: &Encounter) -> Result<AirState, AllocError>
        requires { IsInside enc.now }
        ensures encounter { IfOk result (λ state. state.encounter ≡ enc.now) }
        ensures journal { IfOk result (λ state. state.journal ≡ []) }
    {
        let encounter = enc.copy(alloc)?;
        let usual = UsualFates::new(alloc, enc)?;
        let journal = Journal::new(alloc, count_of(enc), enc.cycles(), pages_for(enc))?;
        let tables = Tables::new(alloc, enc)?;
        Ok(AirState {
            encounter,
            usual,
            journal,
            tables,
        })
    }

    /// A law: the encounter is one, inside the box, and the journal is legal.
    pub fn legal_law(&self)
        ensures valid { IsEncounter self.now.encounter }
        ensures inside { IsInside self.now.encounter }
        ensures legal { IsLegal (air_of self.now.encounter) self.now.journal }
    {
        let _ = &self.tables;
    }

    /// The encounter.
    pub fn enc(&self) -> &Encounter
        ensures { result.now ≡ self.now.encounter }
    {
        &self.encounter
    }

    /// How many entries there are.
    pub fn count(&self) -> u32
        ensures value { result ≡ length self.now.journal }
        ensures legal { IsLegal (air_of self.now.encounter) self.now.journal }
    {
        self.journal.len() as u32
    }

    /// The entry at a position, from 0, read where it is kept; none at or past the count.
    pub fn entry_ref(&self, at: u32) -> Option<EntryRef<'_>>
        ensures { option_map entry_of result ≡ slice_get (reverse self.now.journal) at }
    {
        self.journal.entry(at as usize)
    }

    /// The entry at a position, from 0; none at or past the count.
    pub fn entry(&self, at: u32) -> Option<Entry>
        ensures { result ≡ slice_get (reverse self.now.journal) at }
    {
        match self.entry_ref(at) {
            Some(entry) => Some(entry.entry()),
            None => None,
        }
    }

    /// How many cycles an aircraft has committed.
    pub fn commits(&self, own: u8) -> u16
        ensures { result ≡ commits self.now.journal own }
    {
        if own >= count_of(&self.encounter) {
            return 0;
        }
        self.tables.made(own).commits
    }

    /// The cells of an aircraft's commit of a cycle; none where it hasn't committed it.
    pub fn cells(&self, own: u8, cycle: u16) -> Option<&Cells>
        ensures { option_copied result ≡ commit_cells self.now.journal own cycle }
    {
        self.legal_law();
        if cycle == 0 {
            return None;
        }
        if self.commits(own) < cycle {
            return None;
        }
        Some(self.journal.cells(own, cycle))
    }

    /// The copies of one aircraft's messages to another one that were sent and aren't taken yet, in order
    /// of position and copy.
    pub fn waiting(&self, sender: u8, receiver: u8) -> &[Waiting]
        requires sender { sender < length self.now.encounter.crafts }
        requires receiver { receiver < length self.now.encounter.crafts }
        ensures value { result.now ≡ waiting_of (air_of self.now.encounter) self.now.journal sender receiver }
        ensures queue { IsQueue (air_of self.now.encounter) self.now.journal sender receiver result.now }
    {
        self.tables.queue(sender, receiver)
    }

    // Whether an aircraft has all its commits and owes nothing.
    fn is_done(&self, own: u8) -> bool
        requires { own < length self.now.encounter.crafts }
        ensures { IsTrue result ↔ IsDone (air_of self.now.encounter) self.now.journal own }
    {
        if self.tables.made(own).commits != self.encounter.cycles() {
            return false;
        }
        first_owed(&self.encounter, &self.tables, own).is_none()
    }

    /// Whether every active aircraft has all its commits and owes nothing.
    pub fn complete(&self) -> bool
        ensures { IsTrue result ↔ IsComplete (air_of self.now.encounter) self.now.journal }
    {
        for own in 0..count_of(&self.encounter) {
            if is_active(&self.encounter, own) && !self.is_done(own) {
                return false;
            }
        }
        true
    }
}
