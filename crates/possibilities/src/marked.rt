// The rows of cycles that have one mark.
ghost use Rattle.std.specs.Prelude.{◌≡◌, ◌<◌, ◌≤◌};
ghost use Rattle.equal_rows.specs.Rows.{begins, last_from};
ghost use Rattle.possibilities.specs.Listing.{equal_mark, keeps, row_up_to, shows, word_mark};
ghost use Rattle.possibilities.specs.Rows.{equal_of};

use crate::mark::{Mark, is_same_mark};
use crate::possibilities::Possibilities;
use report_words::Word;

/// Something that has a mark in some cycles.
pub(crate) trait Marked {
    ghost use Rattle.std.specs.Prelude.{ℕ, Option};
    ghost use Rattle.possibilities.specs.declared.mark.Mark.{Mark};

    /// The mark of a cycle, where it has one.
    ghost mark: { Self → ℕ → Option Mark };

    /// The mark of a cycle. Cycle 0 has none.
    fn mark(&self, cycle: u16) -> Option<Mark>
        ensures { result ≡ mark self.now cycle };
}

fn keeps<M: Marked>(marked: &M, cycle: u16) -> bool
    requires { cycle < 600 }
    ensures { result ≡ keeps (M.mark marked.now) cycle }
{
    is_same_mark(marked.mark(cycle), marked.mark(cycle + 1))
}

/// Whether a longest row of cycles with one mark begins with a cycle.
pub(crate) fn begins<M: Marked>(marked: &M, cycle: u16) -> bool
    requires first { 1 ≤ cycle }
    requires last { cycle ≤ 600 }
    ensures { result ≡ begins (shows (M.mark marked.now)) (keeps (M.mark marked.now)) cycle }
{
    marked.mark(cycle).is_some() && !keeps(marked, cycle - 1)
}

/// The last cycle of the row that begins with a cycle.
pub(crate) fn last_from<M: Marked>(marked: &M, cycles: u16, first: u16) -> u16
    requires order { first ≤ cycles }
    requires run { cycles ≤ 600 }
    ensures value { result ≡ last_from (keeps (M.mark marked.now)) cycles first }
    ensures least { first ≤ result }
    ensures most { result ≤ cycles }
{
    for cycle in first..cycles {
        if !keeps(marked, cycle) {
            return cycle;
        }
    }
    cycles
}

/// A word of an aircraft.
#[derive(Clone, Copy)]
pub(crate) struct WordRow<'a> {
    pub possible: &'a Possibilities,
    pub own: u8,
    pub word: Word,
}

impl Marked for WordRow<'_> {
    ghost mark = { λ w. word_mark w.possible.now w.own w.word };

    fn mark(&self, cycle: u16) -> Option<Mark> {
        self.possible.word_mark(self.own, self.word, cycle)
    }
}

/// Equal senses of two aircraft.
#[derive(Clone, Copy)]
pub(crate) struct EqualRow<'a> {
    pub possible: &'a Possibilities,
    pub low: u8,
    pub high: u8,
}

impl Marked for EqualRow<'_> {
    ghost mark = { λ r. equal_mark r.possible.now r.low r.high };

    fn mark(&self, cycle: u16) -> Option<Mark> {
        self.possible.equal_mark(self.low, self.high, cycle)
    }
}

impl EqualRow<'_> {
    /// How many cycles up to this one follow each other in which the two can have equal senses.
    pub(crate) fn up_to(&self, last: u16) -> u16
        ensures value { result ≡ row_up_to (equal_of self.now.possible.now.found.equal self.now.low self.now.high) last }
        ensures most { result ≤ last }
    {
        let mut count = 0;
        for before in 0..last {
            count = if self
                .possible
                .found()
                .is_equal_in(self.low, self.high, before + 1)
            {
                count + 1
            } else {
                0
            };
        }
        count
    }
}
