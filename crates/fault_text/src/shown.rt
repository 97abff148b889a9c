// Bytes that were read, as they may be shown.
ghost use Rattle.std.specs.Prelude.{◌≡◌, ◌+◌, ◌≤◌, ◌++◌, ℕ, List, length};
ghost use Rattle.std.specs.List.{AllByRecursion};
ghost use Rattle.fault_text.specs.Shown.{IsVisible, glyphs, is_plain, shown};

use acas_text::{LINE_BYTES, Line};

// How many bytes are shown at most.
const SHOWN: usize = 40;

/// The most bytes that `add_shown` adds.
pub const SHOWN_BYTES: usize = 164;

// Whether a byte is shown as it is.
fn is_plain(byte: u8) -> bool
    ensures { result ≡ is_plain byte }
{
    match byte {
        b'"' | b'\\' => false,
        _ => 32 <= byte && byte <= 126,
    }
}

// Adds a byte, escaped where it isn't plain.
fn add_glyphs(line: &mut Line, byte: u8)
    requires { length line.old + 4 ≤ LINE_BYTES }
    ensures added { line.new ≡ line.old ++ glyphs byte }
    ensures short { length line.new ≤ length line.old + 4 }
{
    if is_plain(byte) {
        let mut room = [0; 4];
        line.text(char::from(byte).encode_utf8(&mut room));
    } else {
        line.text("\\x");
        line.hex(u64::from(byte), 2);
    }
}

/// Adds bytes that were read between quotes, at most 40 of them, and two points where there are more. Bytes other than
/// letters, digits and the like are escaped.
pub fn add_shown(line: &mut Line, bytes: &[u8])
    requires { length line.old + SHOWN_BYTES ≤ LINE_BYTES }
    ensures added { line.new ≡ line.old ++ shown bytes.now }
    ensures short { length line.new ≤ length line.old + SHOWN_BYTES }
{
    let most = bytes.len().min(SHOWN);
    line.text("\"");
    for byte in &bytes[..most] {
        add_glyphs(line, *byte);
    }
    line.text("\"");
    if most < bytes.len() {
        line.text("..");
    }
}

/// A law: what is shown has only bytes from 32 to 126. So nothing that was read can drive a terminal.
pub fn shown_law()
    ensures { (bytes : List ℕ) → AllByRecursion IsVisible (shown bytes) }
{}
