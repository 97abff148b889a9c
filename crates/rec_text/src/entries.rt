// The lines of a journal's entries.
ghost use Rattle.std.specs.Prelude.{◌≡◌, ◌+◌, ◌*◌, ◌≤◌, ◌<◌, ◌^◌, ◌∷◌, ◌++◌, [], length, take};
ghost use Rattle.std.specs.Fmt.{decimal};
ghost use Rattle.std.specs.List.{flat_map};
ghost use Rattle.acas_base.specs.declared.TheConstants.{CRAFTS};
ghost use Rattle.acas_base.specs.declared.entry.Entry.{Entry};
ghost use Rattle.acas_text.specs.Hex.{hex};
ghost use Rattle.acas_text.specs.declared.line.TheConstants.{LINE_BYTES};
ghost use Rattle.advisory_report.specs.Cells.{cell_text};
ghost use Rattle.advisory_report.specs.declared.cells.TheConstants.{CELL_BYTES};
ghost use Rattle.air_journal.specs.EntryRefs.{entry_of};
ghost use Rattle.air_journal.specs.Ranges.{IsEntry};
ghost use Rattle.rec_text.specs.Entries.{entry_line, entry_lines, outcome};

use acas_base::{CRAFTS, Cells};
use acas_lines::LineSink;
use acas_text::Line;
use advisory_report::{CELL_BYTES, add_cell};
use air_journal::{AirState, EntryRef};

fn outcome_letter(good: bool) -> &'static str
    ensures text { result.now ≡ outcome good }
    ensures short { length result.now ≤ 1 }
{
    if good { "g" } else { "b" }
}

// Adds the cells for the first `count` aircraft, each after a comma.
fn add_cells(line: &mut Line, cells: &Cells, count: u8)
    requires count { count ≤ CRAFTS }
    requires room { length line.old + (CELL_BYTES + 1) * CRAFTS ≤ LINE_BYTES }
    ensures added { line.new ≡ line.old ++ flat_map (λ cell. 44 ∷ cell_text cell) (take count cells.now.list) }
    ensures short { length line.new ≤ length line.old + (CELL_BYTES + 1) * CRAFTS }
{
    for place in 0..usize::from(count) {
        line.text(",");
        add_cell(line, &cells.list[place]);
    }
}

fn add_commit(line: &mut Line, own: u8, cycle: u16, cells: &Cells, count: u8)
    requires empty { line.old ≡ [] }
    requires count { count ≤ CRAFTS }
    ensures { line.new ≡ entry_line count (Entry.Commit own cycle cells.now) }
{
    line.text("c");
    line.u16_field(u16::from(own));
    line.u16_field(cycle);
    add_cells(line, cells, count);
    line.text("\n");
}

fn add_send(line: &mut Line, own: u8, target: u8, number: u16, word: u64, count: u8)
    requires empty { line.old ≡ [] }
    requires word { word < 2 ^ 56 }
    ensures { line.new ≡ entry_line count (Entry.Send own target number word) }
{
    line.text("s");
    line.u16_field(u16::from(own));
    line.u16_field(u16::from(target));
    line.u16_field(number);
    line.hex_field(word, 14);
    line.text("\n");
}

fn add_take(line: &mut Line, own: u8, send: u32, copy: u8, good: bool, count: u8)
    requires { line.old ≡ [] }
    ensures { line.new ≡ entry_line count (Entry.Take own send copy good) }
{
    line.text("t");
    line.u16_field(u16::from(own));
    line.u32_field(send);
    line.u16_field(u16::from(copy));
    line.text_field(outcome_letter(good));
    line.text("\n");
}

/// Makes the line of an entry, with its line feed, in place of what a line held. The entry is one that an encounter of
/// `count` aircraft can have. The call is inlined where all entries are written: else a serial run of 16 aircraft takes
/// 5 per cent more instructions.
#[inline(always)]
pub fn set_entry_line(line: &mut Line, entry: &EntryRef<'_>, count: u8)
    requires few { count ≤ CRAFTS }
    requires fits { IsEntry count (entry_of entry.now) }
    ensures { line.new ≡ entry_line count (entry_of entry.now) }
{
    line.clear();
    match *entry {
        EntryRef::Commit { own, cycle, cells } => add_commit(line, own, cycle, cells, count),
        EntryRef::Send {
            own,
            target,
            number,
            word,
        } => add_send(line, own, target, number, word, count),
        EntryRef::Take {
            own,
            send,
            copy,
            good,
        } => add_take(line, own, send, copy, good, count),
    }
}

/// Puts the lines of the entries, in the order in which they were made.
pub(crate) fn put_entries<S: LineSink>(state: &AirState, sink: &mut S)
    ensures { S.took sink.old sink.new (entry_lines (length state.now.encounter.crafts) state.now.journal) }
{
    let count = state.enc().crafts().len() as u8;
    let mut line = Line::new();
    for at in 0..state.count() {
        if let Some(entry) = state.entry_ref(at) {
            set_entry_line(&mut line, &entry, count);
            sink.line(&line);
        }
    }
}
