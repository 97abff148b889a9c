// What never happens.
ghost use Rattle.std.specs.Prelude.{◌≡◌, ◌<◌, ◌≤◌, true};
ghost use Rattle.possibilities.specs.Excluded.{HasNoRow, NeverEqual, NeverSays, row_with};

use crate::possibilities::Possibilities;
use crate::rows::{coordinate, is_active};
use crate::tables::RUN;
use report_words::Word;

// Whether there are never so many cycles in a row in this list.
fn has_no_row(list: &[bool; RUN], run: u16, cycles: u16) -> bool
    requires run { run ≤ 600 }
    requires some { 1 ≤ cycles }
    ensures { result ≡ true → HasNoRow list.now run cycles }
{
    let mut row = 0;
    for before in 0..run {
        row = row_after(list, before + 1, row);
        if cycles <= row {
            return false;
        }
    }
    true
}

// How many cycles follow each other in this list up to a cycle, where so many do up to the one before.
fn row_after(list: &[bool; RUN], cycle: u16, row: u16) -> u16
    requires cycle { cycle ≤ 600 }
    requires row { row < 600 }
    ensures { result ≡ row_with list.now cycle row }
{
    if list[usize::from(cycle)] { row + 1 } else { 0 }
}

impl Possibilities {
    /// Whether an aircraft has a word in a cycle, 1 or later, in no run that is asked about.
    pub fn excludes_word(&self, own: u8, cycle: u16, word: Word) -> bool
        requires { 1 ≤ cycle }
        ensures { result ≡ true → NeverSays self.now.scope self.now.encounter own cycle word }
    {
        self.found_law();
        if cycle > self.cycles() {
            return true;
        }
        if !is_active(self.state().enc(), own) {
            return true;
        }
        !self.found().has(own, cycle, word)
    }

    /// Whether two aircraft that send each other messages have equal senses in so many cycles in a row in no run that
    /// is asked about. Of others it says nothing.
    pub fn excludes_row(&self, one: u8, other: u8, cycles: u16) -> bool
        requires { 1 ≤ cycles }
        ensures { result ≡ true → NeverEqual self.now.scope self.now.encounter one other cycles }
    {
        self.found_law();
        if !coordinate(self.state().enc(), one, other) {
            return false;
        }
        has_no_row(self.found().list(one, other), self.cycles(), cycles)
    }
}
