// The first piece of a text.
ghost use Rattle.std.specs.Prelude.{◌≡◌, ◌||◌, MatchOption, false};
ghost use Rattle.fault_text.specs.Lines.{is_written};
ghost use Rattle.pieces.specs.Pieces.{IsSize, has_record, is_end};

use fault_text::{cut, field, unmarked};

// Whether a line ends a piece: its first field is `end`.
fn is_end(line: &[u8]) -> bool
    ensures { result ≡ is_end line.now }
{
    field(line, 0) == b"end".as_slice()
}

// Whether there is a record, with a line more.
fn some_with(some: bool, line: &[u8]) -> bool
    ensures { result ≡ (some || is_written line.now) }
{
    some || !line.is_empty()
}

/// How many bytes the first piece of a text has, with the end of its last line; none where the text has no piece.
pub(crate) fn first_size(bytes: &[u8]) -> Option<usize>
    ensures { MatchOption result (has_record bytes.now ≡ false) (IsSize bytes.now) }
{
    let mut rest = unmarked(bytes);
    let mut some = false;
    while !rest.is_empty() {
        let (line, behind) = cut(rest);
        if is_end(line) {
            return Some(bytes.len() - behind.len());
        }
        some = some_with(some, line);
        rest = behind;
    }
    if some { Some(bytes.len()) } else { None }
}
