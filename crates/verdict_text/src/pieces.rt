// Parts of sentences.
ghost use Rattle.std.specs.Prelude.{◌≡◌, ◌+◌, ◌≤◌, ◌++◌, length};
ghost use Rattle.std.specs.Fmt.{decimal};
ghost use Rattle.acas_text.specs.declared.line.TheConstants.{LINE_BYTES};
ghost use Rattle.verdict_text.specs.Sentences.{counted, craft_text, quoted, visible};

use crate::wanted::Wanted;
use acas_text::Line;

/// Adds an index or another small number.
pub(crate) fn add_small(line: &mut Line, value: u8)
    requires { length line.old + 5 ≤ LINE_BYTES }
    ensures added { line.new ≡ line.old ++ decimal value }
    ensures short { length line.new ≤ length line.old + 5 }
{
    line.u16(u16::from(value));
}

/// Adds the name of an aircraft.
pub(crate) fn add_craft(line: &mut Line, own: u8)
    requires { length line.old + 14 ≤ LINE_BYTES }
    ensures added { line.new ≡ line.old ++ craft_text own }
    ensures short { length line.new ≤ length line.old + 14 }
{
    line.text("aircraft ");
    add_small(line, own);
}

/// Adds a number, and a word for one or for another number of things.
pub(crate) fn add_counted(line: &mut Line, count: u32, one: &str, several: &str)
    requires one { length one.now ≤ 40 }
    requires several { length several.now ≤ 40 }
    requires room { length line.old + 50 ≤ LINE_BYTES }
    ensures added { line.new ≡ line.old ++ counted count one.now several.now }
    ensures short { length line.new ≤ length line.old + 50 }
{
    line.u32(count);
    line.text(if count == 1 { one } else { several });
}

/// Adds a small number, as `add_counted` does.
pub(crate) fn add_few(line: &mut Line, count: u8, one: &str, several: &str)
    requires one { length one.now ≤ 40 }
    requires several { length several.now ≤ 40 }
    requires room { length line.old + 50 ≤ LINE_BYTES }
    ensures added { line.new ≡ line.old ++ counted count one.now several.now }
    ensures short { length line.new ≤ length line.old + 50 }
{
    add_counted(line, u32::from(count), one, several);
}

// Adds a byte from 32 to 126. Another one is left out.
fn add_visible(line: &mut Line, byte: u8)
    requires { length line.old + 1 ≤ LINE_BYTES }
    ensures added { line.new ≡ line.old ++ visible byte }
    ensures short { length line.new ≤ length line.old + 1 }
{
    if 32 <= byte && byte <= 126 {
        let mut room = [0; 4];
        line.text(char::from(byte).encode_utf8(&mut room));
    }
}

/// Adds a line that has to stand somewhere, without its line feed, between quotes.
pub(crate) fn add_quoted(line: &mut Line, wanted: &Wanted)
    requires { length line.old + 242 ≤ LINE_BYTES }
    ensures added { line.new ≡ line.old ++ quoted wanted.now }
    ensures short { length line.new ≤ length line.old + 242 }
{
    line.text("\"");
    for byte in wanted.bytes() {
        add_visible(line, *byte);
    }
    line.text("\"");
}
