// What a run shows.
ghost use Rattle.std.specs.Prelude.{◌≡◌, ℕ, ◌<◌, ◌≤◌};
ghost use Rattle.acas_base.specs.declared.TheConstants.{CRAFTS};
ghost use Rattle.air_journal.specs.Airs.{air_of};
ghost use Rattle.air_rules.specs.Rules.{IsComplete};
ghost use Rattle.pair_ways.specs.Asked.{IsAsked};
ghost use Rattle.pair_ways.specs.Equal.{AreEqualIn};
ghost use Rattle.possibilities.specs.Shown.{AddsCycles, AddsEqual, AddsSaid, AddsWords, IsSaidIn, ShowsBesides};
ghost use Rattle.report_words.specs.declared.word.Word.{Word};

use crate::marking::has_equal;
use crate::possibilities::Possibilities;
use crate::tables::{RUN, Tables};
use crate::words::Words;
use acas_base::CRAFTS;
use air_journal::AirState;
use report_words::Word;

// Adds what an aircraft says in a cycle of a run.
fn add_said(row: &mut [Words; RUN], run: &AirState, own: u8, cycle: u16)
    requires { cycle ≤ 600 }
    ensures { AddsSaid run.now.journal own cycle row.old row.new }
{
    if let Some(cells) = run.cells(own, cycle) {
        let at = usize::from(cycle);
        row[at] = row[at].with(Word::of(&cells.list));
    }
}

// Adds a cycle of a run, where two aircraft have equal senses in it.
fn add_equal(list: &mut [bool; RUN], run: &AirState, low: u8, high: u8, cycle: u16)
    requires { cycle ≤ 600 }
    ensures { AddsEqual run.now.journal low high cycle list.old list.new }
{
    if has_equal(run, low, high, cycle) {
        list[usize::from(cycle)] = true;
    }
}

impl Tables {
    // Adds what an aircraft says in a run.
    fn add_words(&mut self, run: &AirState, own: u8)
        requires { own < CRAFTS }
        ensures { AddsWords (λ (one cycle : ℕ) (word : Word). (one ≡ own) × IsSaidIn run.now.journal one cycle word) self.old self.new }
    {
        run.legal_law();
        let mut row = *self.row(own);
        for made in 0..run.enc().cycles() {
            add_said(&mut row, run, own, made + 1);
        }
        self.put_row(own, row);
    }

    // Adds what all aircraft say in a run.
    fn add_all_words(&mut self, run: &AirState)
        ensures { AddsWords (IsSaidIn run.now.journal) self.old self.new }
    {
        run.legal_law();
        for own in 0..CRAFTS {
            self.add_words(run, own as u8);
        }
    }

    // Adds the cycles of a run in which two aircraft have equal senses.
    fn add_cycles(&mut self, run: &AirState, low: u8, high: u8)
        requires order { low < high }
        requires few { high < CRAFTS }
        ensures { AddsCycles (λ (one other cycle : ℕ). (one ≡ low) × ((other ≡ high) × AreEqualIn run.now.journal one other cycle)) self.old self.new }
    {
        run.legal_law();
        let mut list = *self.list(low, high);
        for made in 0..run.enc().cycles() {
            add_equal(&mut list, run, low, high, made + 1);
        }
        self.put_list(low, high, list);
    }

    // Adds those of an aircraft with all others of higher indices.
    fn add_cycles_from(&mut self, run: &AirState, low: u8)
        requires { low < CRAFTS }
        ensures { AddsCycles (λ (one other cycle : ℕ). (one ≡ low) × AreEqualIn run.now.journal one other cycle) self.old self.new }
    {
        for high in usize::from(low) + 1..CRAFTS {
            self.add_cycles(run, low, high as u8);
        }
    }

    // Adds those of two aircraft each.
    fn add_all_cycles(&mut self, run: &AirState)
        ensures { AddsCycles (AreEqualIn run.now.journal) self.old self.new }
    {
        for low in 0..CRAFTS {
            self.add_cycles_from(run, low as u8);
        }
    }

    // Adds all that a run has.
    fn add(&mut self, run: &AirState)
        ensures { ShowsBesides run.now.journal self.old self.new }
    {
        self.add_all_words(run);
        self.add_all_cycles(run);
    }
}

impl Possibilities {
    /// Notes what a run has. It is a complete one of an encounter that is asked about.
    pub fn show(&mut self, run: &AirState)
        requires asked { IsAsked self.old.scope self.old.encounter run.now.encounter }
        requires complete { IsComplete (air_of run.now.encounter) run.now.journal }
        ensures encounter { self.new.encounter ≡ self.old.encounter }
        ensures journal { self.new.journal ≡ self.old.journal }
        ensures scope { self.new.scope ≡ self.old.scope }
        ensures found { self.new.found ≡ self.old.found }
        ensures shown { ShowsBesides run.now.journal self.old.shown self.new.shown }
    {
        run.legal_law();
        self.shown.add(run);
    }
}
