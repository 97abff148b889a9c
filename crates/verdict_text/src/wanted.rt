// Lines that have to stand somewhere.
ghost use Rattle.std.specs.Prelude.{◌≡◌, ◌+◌, ◌≤◌, ◌++◌, length, take};
ghost use Rattle.verdict_text.specs.declared.wanted.TheConstants.{WANTED_BYTES};

use acas_text::Line;
use std::marker::Model;

/// The most bytes of a line that are kept. No line of a recording has more.
pub const WANTED_BYTES: usize = 240;

/// A line that has to stand somewhere in a recording, with its line feed.
#[derive(Drop)]
pub struct Wanted {
    bytes: [u8; WANTED_BYTES],
    len: usize,
}

impl Model for Wanted {
    ghost use Rattle.std.specs.Prelude.{ℕ, List, ◌≤◌, take};
    ghost use Rattle.verdict_text.specs.declared.wanted.TheConstants.{WANTED_BYTES};

    ghost Value = { List ℕ };

    ghost view = { λ a. take a.len a.bytes };

    ghost invariant = { λ a. a.len ≤ WANTED_BYTES };
}

impl Wanted {
    /// This line.
    pub fn of(line: &Line) -> Wanted
        ensures { result ≡ take WANTED_BYTES line.now }
    {
        let text = line.bytes();
        let mut wanted = Wanted {
            bytes: [0; WANTED_BYTES],
            len: 0,
        };
        let most = text.len().min(WANTED_BYTES);
        wanted.add(&text[..most]);
        wanted
    }

    // Adds bytes.
    fn add(&mut self, piece: &[u8])
        requires { length self.old + length piece.now ≤ WANTED_BYTES }
        ensures { self.new ≡ self.old ++ piece.now }
    {
        let end = self.len + piece.len();
        self.bytes[self.len..end].copy_from_slice(piece);
        self.len = end;
    }

    /// Its bytes.
    pub(crate) fn bytes(&self) -> &[u8]
        ensures bytes { result.now ≡ self.now }
        ensures short { length result.now ≤ WANTED_BYTES }
    {
        &self.bytes[..self.len]
    }
}
