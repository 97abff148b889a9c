// The reader of a journal.
ghost use Rattle.std.specs.Prelude.{◌≡◌, ◌+◌, ◌<◌, ◌∷◌, [], MatchOption, Some, length, option_map, reverse, slice_get};
ghost use Rattle.acas_base.specs.Encounter.{IsEncounter};
ghost use Rattle.acas_base.specs.declared.TheConstants.{CRAFTS};
ghost use Rattle.air_journal.specs.Airs.{air_of};
ghost use Rattle.air_journal.specs.EntryRefs.{entry_of};
ghost use Rattle.air_rules.specs.Journal.{Begins, before_last_commit, commits, last_cell};
ghost use Rattle.air_rules.specs.Rules.{IsLegal};
ghost use Rattle.air_rules.specs.Takes.{complement_from, last_take};
ghost use Rattle.journal_reader.specs.Links.{IsKept};
ghost use Rattle.journal_reader.specs.Reading.{Reading, next_entry, present_run, read_of, taken_at, taken_of};

use crate::links::{GoodTake, Link, no_links, note_commit, note_take};
use crate::taking::told_at;
use acas_base::{CRAFTS, Cell, PAIRS, Vrc, pair_of};
use air_journal::{AirState, EntryRef};
use std::marker::Model;

/// A journal, read up to the entry that comes next.
#[derive(Drop)]
pub struct Reader<'a> {
    state: &'a AirState,
    at: u32,
    counts: [u16; CRAFTS],
    links: [Link; PAIRS],
}

impl<'a> Model for Reader<'a> {
    ghost use Rattle.air_journal.specs.Airs.{air_of};
    ghost use Rattle.journal_reader.specs.Links.{IsReader};
    ghost use Rattle.journal_reader.specs.Reading.{Reading, read_of};

    ghost Value = { Reading };

    ghost view = { λ r. record { encounter = r.state.now.encounter; journal = r.state.now.journal; read = read_of r.state.now.journal r.at } };

    ghost invariant = { λ r. IsReader r.state.now.encounter r.state.now.journal r.at r.counts r.links };
}

// Keeps what the entry at a position says.
fn note(
    state: &AirState,
    at: u32,
    entry: &EntryRef<'_>,
    counts: &mut [u16; CRAFTS],
    links: &mut [Link; PAIRS],
)
    requires kept { IsKept (air_of state.now.encounter) (read_of state.now.journal at) counts.old links.old }
    requires entry { slice_get (reverse state.now.journal) at ≡ Some (entry_of entry.now) }
    ensures { IsKept (air_of state.now.encounter) (read_of state.now.journal (at + 1)) counts.new links.new }
{
    state.legal_law();
    match *entry {
        EntryRef::Commit { own, cells, .. } => {
            counts[usize::from(own)] += 1;
            note_commit(links, own, cells, at);
        }
        EntryRef::Send { .. } => {}
        EntryRef::Take {
            own,
            send,
            good,
            ..
        } => {
            if !good {
                return;
            }
            if let Some(told) = told_at(state, send) {
                let taken = GoodTake {
                    at,
                    send,
                    vrc: told.vrc,
                    commits: counts[usize::from(own)],
                };
                note_take(links, own, told.sender, taken);
            }
        }
    }
}

impl<'a> Reader<'a> {
    /// Nothing is read yet.
    pub fn new(state: &'a AirState) -> Reader<'a>
        ensures encounter { result.encounter ≡ state.now.encounter }
        ensures journal { result.journal ≡ state.now.journal }
        ensures read { result.read ≡ [] }
    {
        state.legal_law();
        Reader {
            state,
            at: 0,
            counts: [0; CRAFTS],
            links: no_links(),
        }
    }

    /// A law: the journal is a legal one of the encounter. It begins with what was read, so that is legal, too.
    pub fn reading_law(&self)
        ensures valid { IsEncounter self.now.encounter }
        ensures begins { Begins self.now.read self.now.journal }
        ensures legal { IsLegal (air_of self.now.encounter) self.now.journal }
        ensures read { IsLegal (air_of self.now.encounter) self.now.read }
    {
        self.state.legal_law();
        // For the proof: a field is read, so the invariant is known.
        let _ = &self.at;
    }

    /// The position of the entry that comes next: how many were read.
    pub fn position(&self) -> u32
        ensures { result ≡ length self.now.read }
    {
        self.at
    }

    /// The entry that comes next. It stays unread. None at the end, where all of the journal was read.
    pub fn peek(&self) -> Option<EntryRef<'a>>
        ensures entry { option_map entry_of result ≡ next_entry self.now }
        ensures end { MatchOption result (self.now.read ≡ self.now.journal) (λ entry. Begins (entry_of entry ∷ self.now.read) self.now.journal) }
    {
        self.state.entry_ref(self.at)
    }

    /// Reads the entry that comes next. None at the end, where all of the journal was read.
    pub fn next(&mut self) -> Option<EntryRef<'a>>
        ensures entry { option_map entry_of result ≡ next_entry self.old }
        ensures read { MatchOption result ((self.old.read ≡ self.old.journal) × (self.new.read ≡ self.old.read)) (λ entry. self.new.read ≡ entry_of entry ∷ self.old.read) }
        ensures encounter { self.new.encounter ≡ self.old.encounter }
        ensures journal { self.new.journal ≡ self.old.journal }
    {
        self.state.legal_law();
        let entry = self.state.entry_ref(self.at)?;
        note(
            self.state,
            self.at,
            &entry,
            &mut self.counts,
            &mut self.links,
        );
        self.at += 1;
        Some(entry)
    }

    /// How many cycles an aircraft has committed.
    pub fn commits(&self, own: u8) -> u16
        requires { own < CRAFTS }
        ensures { result ≡ commits self.now.read own }
    {
        self.counts[usize::from(own)]
    }

    /// The cell of an aircraft for another one in its last commit; Clear where it has none.
    pub fn last_cell(&self, own: u8, other: u8) -> Cell
        requires own { own < CRAFTS }
        requires other { other < CRAFTS }
        ensures { result ≡ last_cell self.now.read own other }
    {
        self.links[pair_of(own, other)].cell
    }

    /// The position where the present run of an aircraft against another one began. A run is the longest row of its
    /// commits, up to the last one, that advise in one sense. None where the last commit doesn't advise.
    pub fn run_began(&self, own: u8, other: u8) -> Option<u32>
        requires own { own < CRAFTS }
        requires other { other < CRAFTS }
        ensures { result ≡ present_run self.now.read own other }
    {
        self.links[pair_of(own, other)].run
    }

    /// The last good take by an aircraft of a message of another one.
    pub fn last_take(&self, own: u8, other: u8) -> Option<GoodTake>
        requires own { own < CRAFTS }
        requires other { other < CRAFTS }
        ensures taken { option_map taken_of result ≡ last_take (air_of self.now.encounter) self.now.read own other }
        ensures at { option_map (λ (take : GoodTake). take.at) result ≡ taken_at self.now.read own other }
    {
        self.links[pair_of(own, other)].taken
    }

    /// The last good take by an aircraft of a message of another one before its last commit.
    pub fn take_before(&self, own: u8, other: u8) -> Option<GoodTake>
        requires own { own < CRAFTS }
        requires other { other < CRAFTS }
        ensures taken { option_map taken_of result ≡ last_take (air_of self.now.encounter) (before_last_commit self.now.read own) own other }
        ensures at { option_map (λ (take : GoodTake). take.at) result ≡ taken_at (before_last_commit self.now.read own) own other }
    {
        self.links[pair_of(own, other)].bound
    }

    /// The complement in force on an aircraft from another one.
    pub fn complement(&self, own: u8, other: u8) -> Vrc
        requires own { own < CRAFTS }
        requires other { other < CRAFTS }
        ensures { result ≡ complement_from (air_of self.now.encounter) self.now.read own other }
    {
        match self.last_take(own, other) {
            Some(taken) => taken.vrc.in_force(taken.commits, self.commits(own)),
            None => Vrc::Nil,
        }
    }
}
