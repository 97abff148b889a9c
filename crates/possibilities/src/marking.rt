// The marks of what is possible.
ghost use Rattle.std.specs.Prelude.{◌≡◌};
ghost use Rattle.air_rules.specs.Journal.{cell_at};
ghost use Rattle.possibilities.specs.Listing.{equal_mark, equal_mark_in, has_equal, is_equal_unshown, is_unshown, mark_in, said_in, word_mark};

use crate::mark::{Known, Mark, is_open};
use crate::possibilities::Possibilities;
use acas_base::{Cell, Cells};
use air_journal::AirState;
use pair_ways::are_equal;
use report_words::Word;

// What an aircraft says after its commit of a cycle.
fn said_in(state: &AirState, own: u8, cycle: u16) -> Word
    ensures { result ≡ said_in state.now.journal own cycle }
{
    match state.cells(own, cycle) {
        Some(cells) => Word::of(&cells.list),
        None => Word::Clear,
    }
}

// The cell of a commit for another aircraft. Past the last place it is Clear.
fn cell_at(cells: &Cells, other: u8) -> Cell
    ensures { result ≡ cell_at cells.now other }
{
    match cells.list.get(usize::from(other)) {
        Some(cell) => *cell,
        None => Cell::Clear,
    }
}

/// Whether two aircraft have equal senses in a cycle of a run.
pub(crate) fn has_equal(state: &AirState, low: u8, high: u8, cycle: u16) -> bool
    ensures { result ≡ has_equal state.now.journal low high cycle }
{
    let Some(first) = state.cells(low, cycle) else {
        return false;
    };
    let Some(second) = state.cells(high, cycle) else {
        return false;
    };
    are_equal(&cell_at(first, high), &cell_at(second, low))
}

impl Possibilities {
    // The mark of a word that an aircraft can have in a cycle, 1 or later.
    fn mark_in(&self, own: u8, word: Word, cycle: u16) -> Option<Mark>
        ensures { result ≡ mark_in self.now own word cycle }
    {
        let Some(set) = self.found().words_in(own, cycle) else {
            return None;
        };
        if !set.has(word) {
            return None;
        }
        let known = Known {
            only: !set.has_other(word),
            serial: said_in(self.state(), own, cycle).is(word),
            shown: self.shown().has(own, cycle, word),
        };
        Some(known.mark())
    }

    /// The mark of a word of an aircraft in a cycle; none where it can't have the word.
    #[tactic(auto, unfolding(crate::specs::Listing::word_mark))]
    pub(crate) fn word_mark(&self, own: u8, word: Word, cycle: u16) -> Option<Mark>
        ensures { result ≡ word_mark self.now own word cycle }
    {
        if cycle == 0 {
            return None;
        }
        self.mark_in(own, word, cycle)
    }

    // The mark of a cycle, 1 or later, in which two aircraft can have equal senses.
    fn equal_mark_in(&self, low: u8, high: u8, cycle: u16) -> Option<Mark>
        ensures { result ≡ equal_mark_in self.now low high cycle }
    {
        if !self.found().is_equal_in(low, high, cycle) {
            return None;
        }
        let known = Known {
            only: false,
            serial: has_equal(self.state(), low, high, cycle),
            shown: self.shown().is_equal_in(low, high, cycle),
        };
        Some(known.mark())
    }

    /// The mark of a cycle of two aircraft; none where they can't have equal senses.
    #[tactic(auto, unfolding(crate::specs::Listing::equal_mark))]
    pub(crate) fn equal_mark(&self, low: u8, high: u8, cycle: u16) -> Option<Mark>
        ensures { result ≡ equal_mark self.now low high cycle }
    {
        if cycle == 0 {
            return None;
        }
        self.equal_mark_in(low, high, cycle)
    }

    /// Whether a word of an aircraft in a cycle has the mark `?`. It isn't excluded, it isn't the only one, and neither
    /// the run that is given nor one that was shown has it.
    pub fn is_unshown(&self, own: u8, cycle: u16, word: Word) -> bool
        ensures { result ≡ is_unshown self.now own cycle word }
    {
        is_open(self.word_mark(own, word, cycle))
    }

    /// Whether equal senses of two aircraft in a cycle have the mark `?`.
    pub fn is_equal_unshown(&self, low: u8, high: u8, cycle: u16) -> bool
        ensures { result ≡ is_equal_unshown self.now low high cycle }
    {
        is_open(self.equal_mark(low, high, cycle))
    }
}
