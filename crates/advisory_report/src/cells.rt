// The text of a cell.
ghost use Rattle.std.specs.Prelude.{◌≡◌, ◌+◌, ◌≤◌, ◌++◌, length};
ghost use Rattle.std.specs.Fmt.{decimal};
ghost use Rattle.acas_base.specs.declared.advisory.Cell.{Cell};
ghost use Rattle.acas_text.specs.declared.line.TheConstants.{LINE_BYTES, U16_BYTES};
ghost use Rattle.advisory_report.specs.Cells.{cell_text, flag, sense_letter, strength_digit};

use acas_base::{Cell, Intent, Sense, Strength};
use acas_text::{Line, U16_BYTES};

/// The most bytes of a cell's text: a sense, a strength, a dot, an age and three letters.
pub const CELL_BYTES: usize = 6 + U16_BYTES;

fn add_flag(line: &mut Line, holds: bool, letter: &str)
    requires letter { length letter.now ≡ 1 }
    requires room { length line.old + 1 ≤ LINE_BYTES }
    ensures added { line.new ≡ line.old ++ flag holds letter.now }
    ensures short { length line.new ≤ length line.old + 1 }
{
    if holds {
        line.text(letter);
    }
}

/// The letter of a sense.
pub fn sense_letter(sense: Sense) -> &'static str
    ensures text { result.now ≡ sense_letter sense }
    ensures short { length result.now ≤ 1 }
{
    match sense {
        Sense::Up => "U",
        Sense::Down => "D",
    }
}

/// The digit of a strength, from 1 for the weakest.
pub fn strength_digit(strength: Strength) -> &'static str
    ensures text { result.now ≡ strength_digit strength }
    ensures short { length result.now ≤ 1 }
{
    match strength {
        Strength::Limit2000 => "1",
        Strength::Limit1000 => "2",
        Strength::Limit500 => "3",
        Strength::Level => "4",
        Strength::Positive => "5",
        Strength::Increase => "6",
    }
}

fn add_advisory(line: &mut Line, advisory: &Intent)
    requires { length line.old + CELL_BYTES ≤ LINE_BYTES }
    ensures added { line.new ≡ line.old ++ cell_text (Cell.Ra advisory.now) }
    ensures short { length line.new ≤ length line.old + CELL_BYTES }
{
    line.text(sense_letter(advisory.sense));
    line.text(strength_digit(advisory.strength));
    line.text(".");
    line.u16(advisory.age);
    add_flag(line, advisory.corrective, "c");
    add_flag(line, advisory.crossing, "x");
    add_flag(line, advisory.turned, "r");
}

/// Adds the text of a cell to a line: `-` for Clear, `t` for Traffic. For an advisory it adds the sense, the strength,
/// a dot, the age in cycles, and these letters: `c` where it is corrective, `x` where it is crossing, `r` where its
/// sense was reversed geometrically.
pub fn add_cell(line: &mut Line, cell: &Cell)
    requires { length line.old + CELL_BYTES ≤ LINE_BYTES }
    ensures added { line.new ≡ line.old ++ cell_text cell.now }
    ensures short { length line.new ≤ length line.old + CELL_BYTES }
{
    match cell {
        Cell::Clear => line.text("-"),
        Cell::Traffic => line.text("t"),
        Cell::Ra(advisory) => add_advisory(line, advisory),
    }
}
