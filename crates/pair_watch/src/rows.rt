// How long a row of equal senses lasts, and the message that comes next.
ghost use Rattle.std.specs.Prelude.{◌≡◌, ◌≢◌, ◌+◌, ◌<◌, Some, length};
ghost use Rattle.acas_base.specs.declared.TheConstants.{CRAFTS};
ghost use Rattle.air_journal.specs.EntryRefs.{entry_of};
ghost use Rattle.journal_reader.specs.Reading.{read_of};
ghost use Rattle.pair_watch.specs.Watching.{HasCells, equal_sense, is_send_from, last_of, next_send, pair_cell, row_began};

use crate::pair::Pair;
use acas_base::{Cell, Sense};
use air_journal::{AirState, EntryRef};

// The cell for the other one in a commit of one of a pair; none where the entry is no such commit.
fn pair_cell(entry: &EntryRef<'_>, pair: Pair) -> Option<Cell>
    requires low { pair.low < CRAFTS }
    requires high { pair.high < CRAFTS }
    requires cells { HasCells (entry_of entry.now) }
    ensures { result ≡ pair_cell (entry_of entry.now) pair.low pair.high }
{
    let EntryRef::Commit { own, cells, .. } = *entry else {
        return None;
    };
    if own == pair.high {
        return Some(cells.list[usize::from(pair.low)]);
    }
    if own == pair.low {
        return Some(cells.list[usize::from(pair.high)]);
    }
    None
}

/// The position of the last commit of the row of equal senses that began at a position. It looks no further than to the
/// commit that ends the row.
pub(crate) fn last_of(state: &AirState, pair: Pair, sense: Sense, from: u32) -> u32
    requires low { pair.low < CRAFTS }
    requires high { pair.high < CRAFTS }
    requires apart { pair.low ≢ pair.high }
    requires within { from < length state.now.journal }
    requires row { row_began (read_of state.now.journal (from + 1)) pair.low pair.high ≡ Some from }
    requires sense { equal_sense (read_of state.now.journal (from + 1)) pair.low pair.high ≡ Some sense }
    ensures { last_of state.now.journal pair.low pair.high from ≡ Some result }
{
    state.legal_law();
    let mut last = from;
    for at in from + 1..state.count() {
        let Some(entry) = state.entry_ref(at) else {
            return last;
        };
        if let Some(cell) = pair_cell(&entry, pair) {
            if !cell.has_sense(sense) {
                return last;
            }
            last = at;
        }
    }
    last
}

// A send of the first one of a pair to the one that gives way.
fn is_send_from(entry: &EntryRef<'_>, pair: Pair) -> bool
    ensures { result ≡ is_send_from (entry_of entry.now) pair.low pair.high }
{
    match *entry {
        EntryRef::Send { own, target, .. } => own == pair.low && target == pair.high,
        EntryRef::Commit { .. } | EntryRef::Take { .. } => false,
    }
}

/// The position of the next send of the first one of a pair to the one that gives way, after a position. It comes soon:
/// with an advisory, and after its end, each commit is followed by one.
pub(crate) fn next_send(state: &AirState, pair: Pair, from: u32) -> Option<u32>
    requires { from < length state.now.journal }
    ensures { result ≡ next_send state.now.journal pair.low pair.high from }
{
    state.legal_law();
    for at in from + 1..state.count() {
        if let Some(entry) = state.entry_ref(at) {
            if is_send_from(&entry, pair) {
                return Some(at);
            }
        }
    }
    None
}
