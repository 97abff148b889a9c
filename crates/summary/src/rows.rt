// Where the stretches of each aircraft against each other one begin.
ghost use Rattle.std.specs.Prelude.{◌≡◌, ◌+◌, ◌∷◌, ◌++◌, ◌<◌, ◌≤◌, [], List, length, replicate};
ghost use Rattle.acas_base.specs.declared.TheConstants.{CRAFTS};
ghost use Rattle.acas_base.specs.declared.entry.Entry.TheVariants as entries;
ghost use Rattle.air_journal.specs.Airs.{air_of};
ghost use Rattle.air_journal.specs.EntryRefs.{entry_of};
ghost use Rattle.air_rules.specs.Journal.{Begins};
ghost use Rattle.summary.specs.Kept.{AreRows, IsRow, no_row};
ghost use Rattle.summary.specs.Stretches.{begins, is_same_shown, start_of};

use crate::told::{Told, told_of};
use acas_base::{CRAFTS, Cell, Cells, PAIRS, pair_of};
use air_journal::{AirState, EntryRef};
use journal_reader::Reader;

/// How many stretches of an aircraft against another one are told.
pub(crate) const STRETCHES: usize = 16;

/// The beginning of a stretch: its first cycle, and the message in force before that cycle's commit.
#[derive(Clone, Copy)]
pub(crate) struct Start {
    pub cycle: u16,
    pub told: Option<Told>,
}

/// How many stretches an aircraft has against another one, and where the first ones begin.
#[derive(Clone, Copy)]
pub(crate) struct Row {
    pub count: u16,
    pub first: [Option<Start>; STRETCHES],
}

// No stretch begins.
fn no_row() -> Row
    ensures { result ≡ no_row }
{
    Row {
        count: 0,
        first: [None; STRETCHES],
    }
}

fn no_rows() -> [Row; PAIRS]
    ensures { result ≡ replicate 256 no_row }
{
    [no_row(); PAIRS]
}

/// Whether both cells show the same: nothing, traffic, or advice of one sense and strength.
pub(crate) fn is_same_shown(one: Cell, other: Cell) -> bool
    ensures { result ≡ is_same_shown one other }
{
    match one {
        Cell::Clear => matches!(other, Cell::Clear),
        Cell::Traffic => matches!(other, Cell::Traffic),
        Cell::Ra(one) => match other {
            Cell::Ra(other) => one.sense == other.sense && one.strength == other.strength,
            Cell::Clear | Cell::Traffic => false,
        },
    }
}

fn begins(before: Cell, now: Cell) -> bool
    ensures { result ≡ begins before now }
{
    !matches!(now, Cell::Clear) && !is_same_shown(before, now)
}

impl Row {
    ghost use Rattle.std.specs.Prelude.{List};
    ghost use Rattle.summary.specs.declared.rows.Start.{Start};

    // With the stretch that begins next.
    fn with(&self, start: Start) -> Row
        requires { self.now.count < 600 }
        ensures { (starts : List Start) → IsRow starts self.now → IsRow (starts ++ start ∷ []) result }
    {
        let mut first = self.first;
        let place = usize::from(self.count);
        if place < STRETCHES {
            first[place] = Some(start);
        }
        Row {
            count: self.count + 1,
            first,
        }
    }
}

// Keeps the stretches that begin with the commit that comes next.
fn note_commit(rows: &mut [Row; PAIRS], reader: &Reader<'_>, own: u8, cycle: u16, cells: &Cells)
    requires own { own < CRAFTS }
    requires size { length cells.now.list ≡ CRAFTS }
    requires next { Begins (entries.Commit own cycle cells.now ∷ reader.now.read) reader.now.journal }
    requires kept { AreRows (air_of reader.now.encounter) reader.now.read rows.old }
    ensures { AreRows (air_of reader.now.encounter) (entries.Commit own cycle cells.now ∷ reader.now.read) rows.new }
{
    reader.reading_law();
    for other in 0..CRAFTS as u8 {
        let before = reader.last_cell(own, other);
        if begins(before, cells.list[usize::from(other)]) {
            let pair = pair_of(own, other);
            rows[pair] = rows[pair].with(Start {
                cycle,
                told: told_of(reader, own, other),
            });
        }
    }
}

// Keeps those that begin with the entry that comes next.
fn note(rows: &mut [Row; PAIRS], reader: &Reader<'_>, entry: &EntryRef<'_>)
    requires next { Begins (entry_of entry.now ∷ reader.now.read) reader.now.journal }
    requires kept { AreRows (air_of reader.now.encounter) reader.now.read rows.old }
    ensures { AreRows (air_of reader.now.encounter) (entry_of entry.now ∷ reader.now.read) rows.new }
{
    reader.reading_law();
    match *entry {
        EntryRef::Commit { own, cycle, cells } => note_commit(rows, reader, own, cycle, cells),
        EntryRef::Send { .. } => {}
        EntryRef::Take { .. } => {}
    }
}

/// The rows of all ordered pairs, in one pass over the journal.
pub(crate) fn rows_of(state: &AirState) -> [Row; PAIRS]
    ensures { AreRows (air_of state.now.encounter) state.now.journal result }
{
    let mut rows = no_rows();
    let mut reader = Reader::new(state);
    while let Some(entry) = reader.peek() {
        note(&mut rows, &reader, &entry);
        reader.next();
    }
    rows
}
