// Words in a text.
ghost use Rattle.std.specs.Prelude.{◌≡◌, ◌+◌, ◌*◌, ◌≤◌, ◌++◌, length};
ghost use Rattle.acas_text.specs.declared.line.TheConstants.{LINE_BYTES};
ghost use Rattle.svg_text.specs.Escaped.{escaped, escaped_byte, is_printable};

use acas_text::Line;

fn is_printable(byte: u8) -> bool
    ensures { result ≡ is_printable byte }
{
    32 <= byte && byte <= 126
}

#[tactic(auto, unfolding(crate::specs::Escaped::escaped_byte))]
fn add_byte(line: &mut Line, byte: u8)
    requires { length line.old + 5 ≤ LINE_BYTES }
    ensures added { line.new ≡ line.old ++ escaped_byte byte }
    ensures short { length line.new ≤ length line.old + 5 }
{
    if byte == b'&' {
        line.text("&amp;");
    } else if byte == b'<' {
        line.text("&lt;");
    } else if byte == b'>' {
        line.text("&gt;");
    } else if is_printable(byte) {
        line.byte(byte);
    } else {
        line.text("?");
    }
}

/// Adds words, with references for bytes that have a meaning in the text.
pub(crate) fn add_escaped(line: &mut Line, words: &Line)
    requires { length line.old + 5 * length words.now ≤ LINE_BYTES }
    ensures added { line.new ≡ line.old ++ escaped words.now }
    ensures short { length line.new ≤ length line.old + 5 * length words.now }
{
    for byte in words.bytes() {
        add_byte(line, *byte);
    }
}
