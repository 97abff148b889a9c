// Two recordings, one after the other.
ghost use Rattle.std.specs.Prelude.{◌≡◌, ◌≢◌, ◌-◌, ◌<◌, ◌^◌, MatchBool, length};
ghost use Rattle.acas_lines.specs.Split.{lines_of};
ghost use Rattle.comparison.specs.Splitting.{IsSplit};
ghost use Rattle.rec_text.specs.Recording.{close_line};

use acas_lines::first_line_len;

/// The bytes of two recordings.
#[derive(Clone, Copy)]
pub struct Recordings<'a> {
    /// The first recording.
    pub one: &'a [u8],
    /// What comes after it.
    pub other: &'a [u8],
    /// How many lines the first one has.
    pub lines: u32,
}

fn is_close(line: &[u8]) -> bool
    ensures { MatchBool result (line.now ≡ close_line) (line.now ≢ close_line) }
{
    line == b"close\n".as_slice()
}

/// Cuts bytes behind their first line `close`. Where they have none, all stand in the first part.
pub fn split(bytes: &[u8]) -> Recordings<'_>
    requires { length bytes.now < 2 ^ 32 - 1 }
    ensures parts { IsSplit bytes.now result.one.now result.other.now }
    ensures lines { result.lines ≡ length (lines_of result.one.now) }
{
    let mut at = 0;
    let mut lines = 0;
    while at < bytes.len() {
        let rest = &bytes[at..];
        let len = first_line_len(rest);
        at += len;
        lines += 1;
        if is_close(&rest[..len]) {
            return Recordings {
                one: &bytes[..at],
                other: &bytes[at..],
                lines,
            };
        }
    }
    Recordings {
        one: bytes,
        other: &bytes[at..],
        lines,
    }
}
