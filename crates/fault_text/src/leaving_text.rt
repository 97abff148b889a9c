// Where an aircraft leaves the box, in words.
ghost use Rattle.std.specs.Prelude.{◌≡◌, ◌+◌, ◌≤◌, ◌<◌, ◌++◌, length};
ghost use Rattle.fault_text.specs.LeavingText.{axis_text, box_text, feet_text, leaving_text, sixtieths_text, value_text};

use crate::leaving::Axis;
use acas_text::{LINE_BYTES, Line};

fn axis_text(axis: Axis) -> &'static str
    ensures text { result.now ≡ axis_text axis }
    ensures short { length result.now ≤ 8 }
{
    match axis {
        Axis::X => "x",
        Axis::Y => "y",
        Axis::Altitude => "altitude",
    }
}

fn box_text(axis: Axis) -> &'static str
    ensures text { result.now ≡ box_text axis }
    ensures short { length result.now ≤ 50 }
{
    match axis {
        Axis::Altitude => " ft, and has to be from -1000 to 60000 ft",
        _ => " ft, and has to be from -1000000 to 1000000 ft",
    }
}

// Adds the sixtieths that are left over, where there are any.
fn add_sixtieths(line: &mut Line, count: u32)
    requires { length line.old + 14 ≤ LINE_BYTES }
    ensures added { line.new ≡ line.old ++ sixtieths_text count }
    ensures short { length line.new ≤ length line.old + 14 }
{
    if count != 0 {
        line.text(" ");
        line.u32(count);
        line.text("/60");
    }
}

// Adds a number of 1/60 ft as feet and sixtieths.
fn add_feet(line: &mut Line, value: i32)
    requires { length line.old + 25 ≤ LINE_BYTES }
    ensures added { line.new ≡ line.old ++ feet_text value }
    ensures short { length line.new ≤ length line.old + 25 }
{
    if value < 0 {
        line.text("-");
    }
    let size = value.unsigned_abs();
    line.u32(size / 60);
    add_sixtieths(line, size % 60);
}

// Adds where an aircraft is on an axis.
fn add_value(line: &mut Line, axis: Axis, value: i32)
    requires { length line.old + 25 ≤ LINE_BYTES }
    ensures added { line.new ≡ line.old ++ value_text axis value }
    ensures short { length line.new ≤ length line.old + 25 }
{
    match axis {
        Axis::Altitude => add_feet(line, value),
        _ => line.i32(value),
    }
}

/// Adds in which cycle the box is left, and where.
pub(crate) fn add_leaving(line: &mut Line, cycle: u16, axis: Axis, value: i32)
    requires { length line.old + 130 ≤ LINE_BYTES }
    ensures added { line.new ≡ line.old ++ leaving_text cycle axis value }
    ensures short { length line.new ≤ length line.old + 130 }
{
    line.text(" leaves the box in cycle ");
    line.u16(cycle);
    line.text(": ");
    line.text(axis_text(axis));
    line.text(" is ");
    add_value(line, axis, value);
    line.text(box_text(axis));
}
