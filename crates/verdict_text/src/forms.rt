// What is told of the line of an entry that isn't of its form.
ghost use Rattle.std.specs.Prelude.{◌≡◌, ◌+◌, ◌≤◌, ◌<◌, ◌++◌, length};
ghost use Rattle.acas_text.specs.declared.line.TheConstants.{LINE_BYTES};
ghost use Rattle.fault_text.specs.Hints.{number_hint};
ghost use Rattle.verdict_text.specs.Sentences.{field_text, form_of, form_text, letter_of, range_text, why_text};
ghost use Rattle.verdict_text.specs.declared.fault.Why.TheVariants as why;
ghost use Rattle.verdict_text.specs.declared.spelling.EntryField.TheVariants as field;
ghost use Rattle.verdict_text.specs.declared.spelling.EntryKind.TheVariants as kind;

use crate::pieces::{add_counted, add_craft, add_few};
use crate::spelling::{EntryField, EntryKind};
use acas_text::Line;
use fault_text::{add_shown, number_hint};

fn letter_of(kind: EntryKind) -> &'static str
    ensures text { result.now ≡ letter_of kind }
    ensures short { length result.now ≤ 1 }
{
    match kind {
        EntryKind::Commit => "c",
        EntryKind::Send => "s",
        EntryKind::Take => "t",
    }
}

fn add_commit_form(line: &mut Line, crafts: u8)
    requires { length line.old + 90 ≤ LINE_BYTES }
    ensures added { line.new ≡ line.old ++ form_text kind.Commit crafts }
    ensures short { length line.new ≤ length line.old + 90 }
{
    line.text("c,OWN,CYCLE and ");
    add_few(line, crafts, " cell", " cells");
}

fn add_form(line: &mut Line, kind: EntryKind, crafts: u8)
    requires { length line.old + 90 ≤ LINE_BYTES }
    ensures added { line.new ≡ line.old ++ form_text kind crafts }
    ensures short { length line.new ≤ length line.old + 90 }
{
    match kind {
        EntryKind::Commit => add_commit_form(line, crafts),
        EntryKind::Send => line.text("s,OWN,TARGET,NUMBER,WORD"),
        EntryKind::Take => line.text("t,OWN,POSITION,COPY,RESULT"),
    }
}

/// Adds that an entry hasn't so many fields.
pub(crate) fn add_field_count(line: &mut Line, kind: EntryKind, crafts: u8, fields: u32)
    requires { length line.old + 200 ≤ LINE_BYTES }
    ensures added { line.new ≡ line.old ++ why_text (why.FieldCount kind crafts fields) }
    ensures short { length line.new ≤ length line.old + 200 }
{
    line.text(letter_of(kind));
    line.text(" has ");
    add_counted(line, fields, " field here", " fields here");
    line.text(", and has to be ");
    add_form(line, kind, crafts);
}

fn add_cell(line: &mut Line, other: u8)
    requires { length line.old + 50 ≤ LINE_BYTES }
    ensures added { line.new ≡ line.old ++ field_text (field.Cell other) }
    ensures short { length line.new ≤ length line.old + 50 }
{
    line.text("the cell for ");
    add_craft(line, other);
}

fn add_own_cell(line: &mut Line, own: u8)
    requires { length line.old + 50 ≤ LINE_BYTES }
    ensures added { line.new ≡ line.old ++ field_text (field.OwnCell own) }
    ensures short { length line.new ≤ length line.old + 50 }
{
    line.text("the cell for ");
    add_craft(line, own);
    line.text(" itself");
}

fn add_field(line: &mut Line, name: EntryField)
    requires { length line.old + 50 ≤ LINE_BYTES }
    ensures added { line.new ≡ line.old ++ field_text name }
    ensures short { length line.new ≤ length line.old + 50 }
{
    match name {
        EntryField::Own => line.text("OWN"),
        EntryField::Cycle => line.text("CYCLE"),
        EntryField::Target => line.text("TARGET"),
        EntryField::Number => line.text("NUMBER"),
        EntryField::Word => line.text("WORD"),
        EntryField::Position => line.text("POSITION"),
        EntryField::Copy => line.text("COPY"),
        EntryField::Outcome => line.text("RESULT"),
        EntryField::Cell { other } => add_cell(line, other),
        EntryField::OwnCell { own } => add_own_cell(line, own),
    }
}

// Adds what may be said of what stands in the place of a number.
fn add_hint(line: &mut Line, found: &[u8])
    requires { length line.old + 44 ≤ LINE_BYTES }
    ensures added { line.new ≡ line.old ++ number_hint found.now }
    ensures short { length line.new ≤ length line.old + 44 }
{
    line.text(number_hint(found));
}

// Adds the range of a number, and what may be said of what stands in its place.
fn add_range(line: &mut Line, low: u32, high: u32, found: &[u8])
    requires { length line.old + 100 ≤ LINE_BYTES }
    ensures added { line.new ≡ line.old ++ range_text low high found.now }
    ensures short { length line.new ≤ length line.old + 100 }
{
    line.text("a whole number from ");
    line.u32(low);
    line.text(" to ");
    line.u32(high);
    add_hint(line, found);
}

// Adds what has to stand in a field in place of what does.
fn add_form_of(line: &mut Line, name: EntryField, crafts: u8, found: &[u8])
    requires { length line.old + 100 ≤ LINE_BYTES }
    ensures added { line.new ≡ line.old ++ form_of name crafts found.now }
    ensures short { length line.new ≤ length line.old + 100 }
{
    match name {
        EntryField::Own | EntryField::Target => {
            add_range(line, 0, u32::from(crafts).saturating_sub(1), found);
        }
        EntryField::Cycle | EntryField::Number => add_range(line, 1, 600, found),
        EntryField::Word => line.text("fourteen digits 0-9A-F"),
        EntryField::Position => add_range(line, 0, u32::MAX, found),
        EntryField::Copy => add_range(line, 0, 2, found),
        EntryField::Outcome => line.text("g or b"),
        EntryField::Cell { .. } => line.text(
            "-, t, or U or D, a strength 1 to 6, a point, an age 1 to 600 and letters of c, x, r in this order",
        ),
        EntryField::OwnCell { .. } => line.text("-"),
    }
}

/// Adds what stands in a field, and what has to.
pub(crate) fn add_value(line: &mut Line, name: EntryField, crafts: u8, found: &[u8])
    requires { length line.old + 360 ≤ LINE_BYTES }
    ensures added { line.new ≡ line.old ++ why_text (why.NoValue name crafts found.entry) }
    ensures short { length line.new ≤ length line.old + 360 }
{
    add_field(line, name);
    line.text(" is ");
    add_shown(line, found);
    line.text(", and has to be ");
    add_form_of(line, name, crafts, found);
}
