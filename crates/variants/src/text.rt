// The text of what a change is about.
ghost use Rattle.std.specs.Prelude.{◌≡◌, ◌+◌, ◌++◌, ◌≤◌, ◌<◌, ◌^◌, length, unsigned_abs};
ghost use Rattle.std.specs.Fmt.{decimal, signed_decimal};
ghost use Rattle.acas_base.specs.Encounter.{address_in};
ghost use Rattle.acas_text.specs.declared.line.TheConstants.{LINE_BYTES};
ghost use Rattle.variants.specs.declared.text.TheConstants.{VALUE_BYTES};
ghost use Rattle.variants.specs.Text.{numbers_text, pair_text, value_text};
ghost use Rattle.variants.specs.Variants.{IsSmall};

use crate::Change;
use acas_base::CraftSpec;
use acas_text::Line;

/// The most bytes that [`add_value`] adds.
pub const VALUE_BYTES: usize = 32;

// The address of the aircraft at an index; 0 where there is none.
fn address_in(crafts: &[CraftSpec], craft: u8) -> u32
    ensures value { result ≡ address_in crafts.now craft }
    ensures fits { result < 2 ^ 24 }
{
    match crafts.get(usize::from(craft)) {
        Some(craft) => craft.address.value(),
        None => 0,
    }
}

// Adds two addresses with a stroke between.
fn add_pair(line: &mut Line, crafts: &[CraftSpec], one: u8, two: u8)
    requires room { length line.old + 13 ≤ LINE_BYTES }
    ensures added { line.new ≡ line.old ++ pair_text crafts.now one two }
    ensures short { length line.new ≤ length line.old + 13 }
{
    line.address(address_in(crafts, one));
    line.text("/");
    line.address(address_in(crafts, two));
}

// Adds a number, or the first and the last of more.
fn add_numbers(line: &mut Line, first: u16, last: u16)
    requires room { length line.old + 11 ≤ LINE_BYTES }
    ensures added { line.new ≡ line.old ++ numbers_text first last }
    ensures short { length line.new ≤ length line.old + 11 }
{
    line.u16(first);
    if first != last {
        line.text("-");
        line.u16(last);
    }
}

// Adds a number of more than 32 bits, by its last digit and those before it.
fn add_size(line: &mut Line, size: u64)
    requires small { size ≤ 2 ^ 33 }
    requires room { length line.old + 15 ≤ LINE_BYTES }
    ensures added { line.new ≡ line.old ++ decimal size }
    ensures short { length line.new ≤ length line.old + 15 }
{
    if size < 10 {
        line.u16(size as u16);
        return;
    }
    line.u32((size / 10) as u32);
    line.u16((size % 10) as u16);
}

// Adds a number as a plain decimal.
fn add_number(line: &mut Line, value: i64)
    requires small { unsigned_abs value ≤ 2 ^ 33 }
    requires room { length line.old + 16 ≤ LINE_BYTES }
    ensures added { line.new ≡ line.old ++ signed_decimal value }
    ensures short { length line.new ≤ length line.old + 16 }
{
    if value < 0 {
        line.text("-");
    }
    add_size(line, value.unsigned_abs());
}

/// Adds what a change is about: its value; or the two addresses that are exchanged, as `400A01/400B02`; or the sender,
/// the receiver and the numbers of the lost messages, as `400A01/400B02/3` or `400A01/400B02/1-3`.
pub fn add_value(line: &mut Line, crafts: &[CraftSpec], change: Change)
    requires small { IsSmall change }
    requires room { length line.old + VALUE_BYTES ≤ LINE_BYTES }
    ensures added { line.new ≡ line.old ++ value_text crafts.now change }
    ensures short { length line.new ≤ length line.old + VALUE_BYTES }
{
    match change {
        Change::Shifted(shift) => add_number(line, shift.value),
        Change::Lost(loss) => {
            add_pair(line, crafts, loss.sender, loss.receiver);
            line.text("/");
            add_numbers(line, loss.first, loss.last);
        }
        Change::Exchanged(pair) => add_pair(line, crafts, pair.one, pair.two),
    }
}
