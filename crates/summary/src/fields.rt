// The texts of single columns.
ghost use Rattle.std.specs.Prelude.{◌≡◌, ◌+◌, ◌≤◌, ◌<◌, ◌^◌, ◌++◌, length};
ghost use Rattle.acas_text.specs.declared.line.TheConstants.{LINE_BYTES, U16_BYTES, U32_BYTES};
ghost use Rattle.air_journal.specs.Airs.{address_of};
ghost use Rattle.summary.specs.Fields.{cycles_text, kind_text, margin, miles, more_line, rank_text, spaces, two_digits, word_columns};

use acas_base::{Address, Encounter, Kind, Rank};
use acas_text::{Line, U16_BYTES, U32_BYTES};

/// The most bytes of a distance in nautical miles: a number, the point and two digits.
pub(crate) const MILES_BYTES: usize = U32_BYTES + 1 + 1 + U16_BYTES;

/// The most bytes of the first and the last cycle of a row.
pub(crate) const CYCLES_BYTES: usize = 15;

pub(crate) fn kind_text(kind: Kind) -> &'static str
    ensures text { result.now ≡ kind_text kind }
    ensures short { length result.now ≤ 4 }
{
    match kind {
        Kind::Ra => "RA",
        Kind::Ta => "TA",
        Kind::Xpdr => "XPDR",
    }
}

pub(crate) fn rank_text(rank: Rank) -> &'static str
    ensures text { result.now ≡ rank_text rank }
    ensures short { length result.now ≤ 7 }
{
    match rank {
        Rank::First => " first",
        Rank::Second => " second",
        Rank::Free => " free",
    }
}

fn margin(cycle: u16) -> &'static str
    ensures text { result.now ≡ margin cycle }
    ensures short { length result.now ≤ 2 }
{
    if cycle < 10 {
        return "  ";
    }
    if cycle < 100 {
        return " ";
    }
    ""
}

/// Adds the first and the last cycle of a row, each in three columns.
pub(crate) fn add_cycles(line: &mut Line, first: u16, last: u16)
    requires { length line.old + 15 ≤ LINE_BYTES }
    ensures added { line.new ≡ line.old ++ cycles_text first last }
    ensures short { length line.new ≤ length line.old + 15 }
{
    line.text(margin(first));
    line.u16(first);
    line.text("-");
    line.text(margin(last));
    line.u16(last);
}

// So many spaces.
fn spaces(count: usize) -> &'static str
    requires { count ≤ 13 }
    ensures text { result.now ≡ spaces count }
    ensures longer { length result.now ≡ count }
{
    match count {
        0 => "",
        1 => " ",
        2 => "  ",
        3 => "   ",
        4 => "    ",
        5 => "     ",
        6 => "      ",
        7 => "       ",
        8 => "        ",
        9 => "         ",
        10 => "          ",
        11 => "           ",
        12 => "            ",
        _ => "             ",
    }
}

/// Adds a word of the report in its columns.
pub(crate) fn add_word(line: &mut Line, word: &str)
    requires word { length word.now ≤ 13 }
    requires room { length line.old + 13 ≤ LINE_BYTES }
    ensures added { line.new ≡ line.old ++ word_columns word.now }
    ensures short { length line.new ≤ length line.old + 13 }
{
    line.text(word);
    line.text(spaces(13 - word.len()));
}

// Adds a number below 100 in two digits.
fn add_two_digits(line: &mut Line, number: u16)
    requires { length line.old + 1 + U16_BYTES ≤ LINE_BYTES }
    ensures added { line.new ≡ line.old ++ two_digits number }
    ensures short { length line.new ≤ length line.old + 1 + U16_BYTES }
{
    if number < 10 {
        line.text("0");
    }
    line.u16(number);
}

/// Adds a distance in ft as nautical miles.
pub(crate) fn add_miles(line: &mut Line, feet: u32)
    requires { length line.old + MILES_BYTES ≤ LINE_BYTES }
    ensures added { line.new ≡ line.old ++ miles feet }
    ensures short { length line.new ≤ length line.old + MILES_BYTES }
{
    let hundredths = (u64::from(feet) * 100 / 6076) as u32;
    line.u32(hundredths / 100);
    line.text(".");
    add_two_digits(line, (hundredths % 100) as u16);
}

/// The line that says how many rows aren't told.
pub(crate) fn more_line(count: u32) -> Line
    ensures { result ≡ more_line count }
{
    let mut line = Line::new();
    line.text("    and ");
    line.u32(count);
    line.text(" more\n");
    line
}

/// The address of an aircraft.
pub(crate) fn address_of(encounter: &Encounter, craft: u8) -> Address
    requires { craft < length encounter.now.crafts }
    ensures { result ≡ address_of encounter.now craft }
{
    encounter.crafts()[usize::from(craft)].address
}
