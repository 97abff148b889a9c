// The lines of a text, read one after the other.
ghost use Rattle.std.specs.Prelude.{◌≡◌, ◌≢◌, ◌∷◌, ◌+◌, ◌<◌, ◌-◌, ◌^◌, ◌↔◌, [], List, ℕ, IsTrue, MatchOption, length};
ghost use Rattle.acas_lines.specs.Split.{IsLine, lines_of};
ghost use Rattle.acas_lines.specs.Lines.{joined};
ghost use Rattle.rec_audit.specs.Cursors.{TakesLine, Took};

use acas_lines::first_line_len;
use std::marker::Model;

/// The lines of a text that are still to come, and how many were taken before them.
#[derive(Drop)]
pub(crate) struct TextLines<'a> {
    rest: &'a [u8],
    taken: u32,
}

impl<'a> Model for TextLines<'a> {
    ghost use Rattle.std.specs.Prelude.{◌+◌, ◌<◌, length};
    ghost use Rattle.acas_lines.specs.Split.{lines_of};
    ghost use Rattle.rec_audit.specs.Cursors.{Cursor};

    ghost Value = { Cursor };

    ghost view = { λ a. record { left = lines_of a.rest.now; taken = a.taken } };

    ghost invariant = { λ a. a.taken + length (lines_of a.rest.now) < 4294967295 };
}

impl<'a> TextLines<'a> {
    /// All lines of a text. Their numbers, and the one after, fit 32 bits.
    pub fn of(text: &'a [u8]) -> TextLines<'a>
        requires { length text.now < 2 ^ 32 - 1 }
        ensures left { result.left ≡ lines_of text.now }
        ensures taken { result.taken ≡ 0 }
    {
        TextLines {
            rest: text,
            taken: 0,
        }
    }

    /// The lines of a text that stands behind one other line.
    pub fn second(text: &'a [u8]) -> TextLines<'a>
        requires { length text.now < 2 ^ 32 - 2 }
        ensures left { result.left ≡ lines_of text.now }
        ensures taken { result.taken ≡ 1 }
    {
        TextLines {
            rest: text,
            taken: 1,
        }
    }

    /// The same lines, to be read again.
    pub fn again(&self) -> TextLines<'a>
        ensures { result ≡ self.now }
    {
        TextLines {
            rest: self.rest,
            taken: self.taken,
        }
    }

    /// The bytes of the lines that are still to come.
    pub fn rest(&self) -> &'a [u8]
        ensures { result.now ≡ joined self.now.left }
    {
        self.rest
    }

    /// The number of the next line, from 1. Where no line is left, it is one more than the number of the last line.
    pub fn number(&self) -> u32
        ensures { result ≡ self.now.taken + 1 }
    {
        self.taken + 1
    }

    /// The next line, with its line feed where it has one.
    pub fn next(&mut self) -> Option<&'a [u8]>
        ensures { MatchOption result ((self.old.left ≡ []) × (self.new ≡ self.old)) (λ line. Took self.old self.new (line.now ∷ [])) }
    {
        if self.rest.is_empty() {
            return None;
        }
        let (line, rest) = self.rest.split_at(first_line_len(self.rest));
        self.rest = rest;
        self.taken += 1;
        Some(line)
    }

    /// Whether no line is left.
    pub fn is_done(&self) -> bool
        ensures { IsTrue result ↔ (self.now.left ≡ []) }
    {
        self.rest.is_empty()
    }

    /// Takes the next line where it is this one. `line` has its line feed, so the end of the next line needn't be
    /// looked for.
    pub fn take_whole(&mut self, line: &[u8]) -> bool
        requires { IsLine line.now }
        ensures { TakesLine self.old self.new line.now result }
    {
        match behind(self.rest, line) {
            Some(rest) => {
                self.rest = rest;
                self.taken += 1;
                true
            }
            None => false,
        }
    }

    /// Takes the next line where it is this one.
    pub fn take_line(&mut self, line: &[u8]) -> bool
        ensures { TakesLine self.old self.new line.now result }
    {
        let mut after = self.again();
        match after.next() {
            Some(next) => {
                if next != line {
                    return false;
                }
                *self = after;
                true
            }
            None => false,
        }
    }
}

// What stands behind a whole line, where a text begins with that line.
fn behind<'a>(text: &'a [u8], line: &[u8]) -> Option<&'a [u8]>
    requires { IsLine line.now }
    ensures { MatchOption result ((rest : List (List ℕ)) → lines_of text.now ≢ line.now ∷ rest) (λ after. lines_of text.now ≡ line.now ∷ lines_of after.now) }
{
    text.strip_prefix(line)
}
