// What a run is to have, and whether it does.
ghost use Rattle.std.specs.Prelude.{◌≡◌, ◌<◌, ◌+◌, ◌⊎◌, true};
ghost use Rattle.air_rules.specs.Journal.{cell_at};
ghost use Rattle.instances.specs.Having.{AreEqualFor, Has, HasWord};
ghost use Rattle.pair_ways.specs.Equal.{AreEqualIn};

use acas_base::{Cell, Cells};
use air_journal::AirState;
use pair_ways::are_equal;
use report_words::Word;

/// What a run is to have.
#[derive(Clone, Copy)]
pub enum Sought {
    /// The aircraft at an index has a word in a cycle.
    Word { own: u8, cycle: u16, word: Word },
    /// Two aircraft, by their indices, have equal senses against each other in so many cycles in a row.
    Equal { one: u8, other: u8, cycles: u16 },
}

// The cell of a commit for another aircraft. Past the last place it is Clear.
fn cell_at(cells: &Cells, other: u8) -> Cell
    ensures { result ≡ cell_at cells.now other }
{
    match cells.list.get(usize::from(other)) {
        Some(cell) => *cell,
        None => Cell::Clear,
    }
}

/// Whether an aircraft has a word in a cycle.
pub(crate) fn has_word(state: &AirState, own: u8, cycle: u16, word: Word) -> bool
    ensures { result ≡ true → HasWord state.now.journal own cycle word }
{
    match state.cells(own, cycle) {
        Some(cells) => Word::of(&cells.list).is(word),
        None => false,
    }
}

/// Whether two aircraft have equal senses in a cycle.
pub(crate) fn has_equal(state: &AirState, one: u8, other: u8, cycle: u16) -> bool
    ensures { result ≡ true → AreEqualIn state.now.journal one other cycle }
{
    let Some(first) = state.cells(one, cycle) else {
        return false;
    };
    let Some(second) = state.cells(other, cycle) else {
        return false;
    };
    are_equal(&cell_at(first, other), &cell_at(second, one))
}

// How many cycles with equal senses follow each other up to a cycle, where so many did up to the one before.
fn row_after(state: &AirState, one: u8, other: u8, cycle: u16, row: u16) -> u16
    requires { row < 600 }
    ensures { (result ≡ 0) ⊎ ((result ≡ row + 1) × AreEqualIn state.now.journal one other cycle) }
{
    if has_equal(state, one, other, cycle) {
        return row + 1;
    }
    0
}

// Whether two aircraft have equal senses in so many cycles in a row.
fn has_row(state: &AirState, one: u8, other: u8, cycles: u16) -> bool
    ensures { result ≡ true → AreEqualFor state.now.journal one other cycles }
{
    let mut row = 0;
    for before in 0..600u16 {
        if cycles <= row {
            return true;
        }
        row = row_after(state, one, other, before + 1, row);
    }
    if cycles <= row {
        return true;
    }
    false
}

impl Sought {
    /// Whether a run has it.
    pub fn is_in(self, state: &AirState) -> bool
        ensures { result ≡ true → Has state.now.journal self }
    {
        match self {
            Sought::Word { own, cycle, word } => has_word(state, own, cycle, word),
            Sought::Equal { one, other, cycles } => has_row(state, one, other, cycles),
        }
    }
}
