// The text of rows.
ghost use Rattle.std.specs.Prelude.{◌≡◌, ◌+◌, ◌-◌, ◌≤◌, ◌<◌, ◌++◌, length};
ghost use Rattle.std.specs.Fmt.{decimal};
ghost use Rattle.acas_text.specs.declared.line.TheConstants.{LINE_BYTES};
ghost use Rattle.deliveries.specs.Rows.{rows};
ghost use Rattle.deliveries.specs.Text.{more_text, row_text, rows_text};
ghost use Rattle.deliveries.specs.Told.{next_text};

use crate::rows::{Numbers, Row};
use acas_text::Line;

/// The most bytes of the text of rows: six rows of 7 bytes, five times 2 bytes between them, and how many there are
/// besides.
pub(crate) const ROWS_BYTES: usize = 67;

// How many rows are told.
const SHOWN: u16 = 6;

// Adds a number of at most three digits.
fn add_number(line: &mut Line, number: u16)
    requires few { number ≤ 600 }
    requires room { length line.old + 5 ≤ LINE_BYTES }
    ensures added { line.new ≡ line.old ++ decimal number }
    ensures short { length line.new ≤ length line.old + 3 }
{
    line.u16(number);
}

fn add_row(line: &mut Line, row: Row)
    requires first { row.first ≤ 600 }
    requires last { row.last ≤ 600 }
    requires room { length line.old + 9 ≤ LINE_BYTES }
    ensures added { line.new ≡ line.old ++ row_text row }
    ensures short { length line.new ≤ length line.old + 7 }
{
    add_number(line, row.first);
    if row.first != row.last {
        line.text("-");
        add_number(line, row.last);
    }
}

// Adds a row after so many rows, where it is told.
fn add_next(line: &mut Line, count: u16, row: Row)
    requires first { row.first ≤ 600 }
    requires last { row.last ≤ 600 }
    requires room { length line.old + 11 ≤ LINE_BYTES }
    ensures added { line.new ≡ line.old ++ next_text count row }
    ensures short { length line.new ≤ length line.old + 9 }
    ensures same { 6 ≤ count → line.new ≡ line.old }
{
    if count >= SHOWN {
        return;
    }
    if count > 0 {
        line.text(", ");
    }
    add_row(line, row);
}

// Adds how many of so many rows weren't told.
fn add_more(line: &mut Line, count: u16)
    requires few { count ≤ 600 }
    requires room { length line.old + 15 ≤ LINE_BYTES }
    ensures added { line.new ≡ line.old ++ more_text (count - 6) }
    ensures short { length line.new ≤ length line.old + 13 }
{
    if count > SHOWN {
        line.text(" and ");
        add_number(line, count - SHOWN);
        line.text(" more");
    }
}

/// Adds the rows of marked numbers: the first six, and how many there are besides.
pub(crate) fn add_rows(line: &mut Line, numbers: &Numbers)
    requires { length line.old + 69 ≤ LINE_BYTES }
    ensures added { line.new ≡ line.old ++ rows_text (rows numbers.now) }
    ensures short { length line.new ≤ length line.old + 67 }
{
    let mut count = 0;
    for before in 0..numbers.len() {
        if let Some(row) = numbers.row_at(before + 1) {
            add_next(line, count, row);
            count += 1;
        }
    }
    add_more(line, count);
}
