// The line of a cell that differs.
ghost use Rattle.std.specs.Prelude.{◌≡◌, ◌+◌, ◌<◌, ◌≤◌, ◌^◌, ◌∷◌, ◌++◌, MatchBool, Some, length};
ghost use Rattle.acas_text.specs.declared.line.TheConstants.{LINE_BYTES, U32_BYTES};
ghost use Rattle.advisory_report.specs.declared.cells.TheConstants.{CELL_BYTES};
ghost use Rattle.air_journal.specs.Airs.{address_of};
ghost use Rattle.air_journal.specs.EntryRefs.{entry_of};
ghost use Rattle.journal_reader.specs.Reading.{read_of};
ghost use Rattle.comparison.specs.Cells.{cell_line, commit_at, found_text, is_commit_in, position_text};

use crate::cells::{CellPlace, cell_of};
use acas_base::{Cell, Encounter};
use acas_text::Line;
use advisory_report::add_cell;
use air_journal::{AirState, EntryRef};

fn is_commit(entry: &EntryRef<'_>, own: u8, cycle: u16) -> bool
    ensures { result ≡ is_commit_in own cycle (entry_of entry.now) }
{
    match *entry {
        EntryRef::Commit {
            own: committer,
            cycle: committed,
            ..
        } => committer == own && committed == cycle,
        EntryRef::Send { .. } | EntryRef::Take { .. } => false,
    }
}

// Whether the entry at a position is an aircraft's commit of a cycle.
fn is_commit_at(state: &AirState, at: u32, own: u8, cycle: u16) -> bool
    ensures { MatchBool result (commit_at (read_of state.now.journal (at + 1)) own cycle ≡ Some at) (commit_at (read_of state.now.journal (at + 1)) own cycle ≡ commit_at (read_of state.now.journal at) own cycle) }
{
    match state.entry_ref(at) {
        Some(entry) => is_commit(&entry, own, cycle),
        None => false,
    }
}

// The position of an aircraft's commit of a cycle.
fn commit_at(state: &AirState, own: u8, cycle: u16) -> Option<u32>
    ensures { result ≡ commit_at state.now.journal own cycle }
{
    let mut found = None;
    for at in 0..state.count() {
        if is_commit_at(state, at, own, cycle) {
            found = Some(at);
        }
    }
    found
}

// Adds a comma, and a position where there is one.
fn add_position(line: &mut Line, position: Option<u32>)
    requires { length line.old + 1 + U32_BYTES ≤ LINE_BYTES }
    ensures added { line.new ≡ line.old ++ 44 ∷ position_text position }
    ensures short { length line.new ≤ length line.old + 1 + U32_BYTES }
{
    line.text(",");
    if let Some(position) = position {
        line.u32(position);
    }
}

// Adds a comma, and a cell where there is one.
fn add_found(line: &mut Line, cell: Option<Cell>)
    requires { length line.old + 1 + CELL_BYTES ≤ LINE_BYTES }
    ensures added { line.new ≡ line.old ++ 44 ∷ found_text cell }
    ensures short { length line.new ≤ length line.old + 1 + CELL_BYTES }
{
    line.text(",");
    if let Some(cell) = cell {
        add_cell(line, &cell);
    }
}

// The number of an aircraft's address.
fn address_of(encounter: &Encounter, index: u8) -> u32
    ensures value { result ≡ address_of encounter.now index }
    ensures fits { result < 2 ^ 24 }
{
    match encounter.crafts().get(usize::from(index)) {
        Some(craft) => craft.address.value(),
        None => 0,
    }
}

/// The line of a cell that differs: the cycle, the aircraft and the one that the cell is for, and then the position of
/// the commit and the cell in each journal.
pub(crate) fn cell_line(one: &AirState, other: &AirState, place: CellPlace) -> Line
    ensures { result ≡ cell_line one.now.encounter one.now.journal other.now.journal place }
{
    let mut line = Line::new();
    line.text("cell");
    line.u16_field(place.cycle);
    line.address_field(address_of(one.enc(), place.own));
    line.address_field(address_of(one.enc(), place.other));
    add_position(&mut line, commit_at(one, place.own, place.cycle));
    add_found(
        &mut line,
        cell_of(one.cells(place.own, place.cycle), place.other),
    );
    add_position(&mut line, commit_at(other, place.own, place.cycle));
    add_found(
        &mut line,
        cell_of(other.cells(place.own, place.cycle), place.other),
    );
    line.text("\n");
    line
}
