// Entries by their lines.
ghost use Rattle.std.specs.Prelude.{◌≡◌, ◌≢◌, ◌++◌, ◌<◌, ◌≤◌, IsTrue, MatchOption, map, take};
ghost use Rattle.acas_base.specs.declared.TheConstants.{CRAFTS};
ghost use Rattle.acas_base.specs.declared.advisory.Cell.{Cell};
ghost use Rattle.acas_base.specs.declared.advisory.Cells.{Cells};
ghost use Rattle.advisory_report.specs.Cells.{cell_text};
ghost use Rattle.air_journal.specs.Ranges.{AreCells, IsCell};
ghost use Rattle.rec_audit.specs.Keys.{IsKey, key_fields};
ghost use Rattle.rec_audit.specs.Reading.{ReadsFields, ReadsLine};
ghost use Rattle.rec_audit.specs.declared.keys.Key.{Key};

use crate::fields::Fields;
use crate::keys::{Key, key_of};
use crate::values::{before_flag, cell_of, outcome_of};
use acas_base::{CRAFTS, Cell, Cells, Entry};
use acas_text::parse_hex;

// How many digits the word of a message has.
const WORD_DIGITS: usize = 14;

// The take of a copy, by the last field of its line, which is still to come.
fn take_of(fields: &mut Fields<'_>, count: u8, own: u8, send: u32, copy: u8) -> Option<Entry>
    requires key { IsKey count (Key.Take own send copy) }
    ensures { ReadsFields count (key_fields (Key.Take own send copy) ++ fields.old) result }
{
    let good = outcome_of(fields.next()?)?;
    if !fields.is_done() {
        return None;
    }
    Some(Entry::Take {
        own,
        send,
        copy,
        good,
    })
}

// The send of a pair, by the number and the word, which are still to come.
fn send_of(fields: &mut Fields<'_>, count: u8, own: u8, target: u8) -> Option<Entry>
    requires key { IsKey count (Key.Send own target) }
    requires count { count ≤ CRAFTS }
    ensures { ReadsFields count (key_fields (Key.Send own target) ++ fields.old) result }
{
    let number = fields.number(1, 600)?;
    let word = parse_hex(fields.next()?, WORD_DIGITS)?;
    if !fields.is_done() {
        return None;
    }
    Some(Entry::Send {
        own,
        target,
        number: number as u16,
        word,
    })
}

// The cell that a text spells. In the place of the aircraft itself it has to be Clear.
fn cell_in(text: &[u8], own: bool) -> Option<Cell>
    ensures { MatchOption result
        ((cell : Cell) → IsCell cell → (IsTrue own → cell ≡ Cell.Clear) → cell_text cell ≢ text.now)
        (λ cell. IsCell cell × (IsTrue own → cell ≡ Cell.Clear) × (text.now ≡ cell_text cell)) }
{
    let cell = cell_of(text)?;
    if own && cell != Cell::Clear {
        return None;
    }
    Some(cell)
}

fn cells_of(fields: &mut Fields<'_>, count: u8, own: u8) -> Option<Cells>
    requires { (own < count) × (count ≤ CRAFTS) }
    ensures { MatchOption result
        ((cells : Cells) → AreCells count own cells → map cell_text (take count cells.list) ≢ fields.old)
        (λ cells. AreCells count own cells × (fields.old ≡ map cell_text (take count cells.list))) }
{
    let mut list = [Cell::Clear; CRAFTS];
    for place in 0..count {
        let cell = cell_in(fields.next()?, place == own)?;
        list[usize::from(place)] = cell;
    }
    if !fields.is_done() {
        return None;
    }
    Some(Cells { list })
}

// The commit of an aircraft and a cycle, by the cells, which are still to come.
fn commit_of(fields: &mut Fields<'_>, count: u8, own: u8, cycle: u16) -> Option<Entry>
    requires key { IsKey count (Key.Commit own cycle) }
    requires count { count ≤ CRAFTS }
    ensures { ReadsFields count (key_fields (Key.Commit own cycle) ++ fields.old) result }
{
    let cells = cells_of(fields, count, own)?;
    Some(Entry::Commit { own, cycle, cells })
}

// The entry that the fields of a line spell.
fn entry_of(fields: &mut Fields<'_>, count: u8) -> Option<Entry>
    requires { (0 < count) × (count ≤ CRAFTS) }
    ensures { ReadsFields count fields.old result }
{
    match key_of(fields, count)? {
        Key::Commit { own, cycle } => commit_of(fields, count, own, cycle),
        Key::Send { own, target } => send_of(fields, count, own, target),
        Key::Take { own, send, copy } => take_of(fields, count, own, send, copy),
    }
}

/// The entry that a line spells, in an encounter of `count` aircraft. It has indices of these aircraft, cycles and
/// numbers from 1 to 600, positions below 2^32, copies from 0 to 2, as many cells as aircraft, and ages from 1 to 600.
/// None where no such entry has this line.
pub(crate) fn read_entry(line: &[u8], count: u8) -> Option<Entry>
    requires { (0 < count) × (count ≤ CRAFTS) }
    ensures { ReadsLine count line.now result }
{
    let (body, is_whole) = before_flag(line, b'\n');
    if !is_whole {
        return None;
    }
    entry_of(&mut Fields::of(body), count)
}
