// The outside world on both sides of the program: readers and writers. One call of theirs is one call of std's.
ghost use Rattle.std.specs.Prelude.{ℕ, List, Result, length};
ghost use Rattle.std.specs.Io.{ReadsAtMost, WritesAtMost};
ghost use Rattle.std.specs.Io.KnownBytes.{Keeps, ReadConsumes, WriteAppends};
ghost use Rattle.std.specs.declared.option.Option.{Option};
ghost use Rattle.acas_io.specs.declared.stream.Failed.{Failed};

use crate::Failed;
use std::io::{Read, Write};

/// A reader of the outside world. Nothing is known of what its calls give. So a proof over any reader can show that
/// something is what one call gave, and that no other call was made.
pub trait Reader {
    /// The bytes still to come, where they are known.
    ghost left: { Self → Option (List ℕ) };

    /// What a read may give. The terms are a reader, the length of a buffer, an answer, the buffer after the read, and
    /// the reader after it.
    ghost read_gives: { Self → ℕ → Result ℕ Failed → List ℕ → Self → Type 0 };

    /// Reads once.
    fn read_once(&mut self, buf: &mut [u8]) -> Result<usize, Failed>
        ensures gives { read_gives self.old (length buf.old) result buf.new self.new }
        ensures bound { ReadsAtMost result buf.new }
        ensures bytes { ReadConsumes (left self.old) (left self.new) result buf.new };
}

/// A writer to the outside world. Nothing is known of its calls.
pub trait Writer {
    /// The bytes that the writer holds, where they are known.
    ghost holds: { Self → Option (List ℕ) };

    /// What a write may give. The terms are a writer, a piece, an answer, and the writer after the write.
    ghost write_gives: { Self → List ℕ → Result ℕ Failed → Self → Type 0 };

    /// What a flush may give.
    ghost flush_gives: { Self → Result (Unit {0}) Failed → Self → Type 0 };

    /// Writes once.
    fn write_once(&mut self, piece: &[u8]) -> Result<usize, Failed>
        ensures gives { write_gives self.old piece.now result self.new }
        ensures bound { WritesAtMost result piece.now }
        ensures bytes { WriteAppends (holds self.old) (holds self.new) result piece.now };

    /// Flushes once.
    fn flush_once(&mut self) -> Result<(), Failed>
        ensures gives { flush_gives self.old result self.new }
        ensures bytes { Keeps (holds self.old) (holds self.new) };
}

// The two impls below hand each call to std's readers and writers. It isn't proved that each makes one call of std's.

impl<R: Read> Reader for R {
    ghost left = { R.remaining };

    ghost read_gives = { λ _ _ _ _ _. Unit {0} };

    fn read_once(&mut self, buf: &mut [u8]) -> Result<usize, Failed> {
        self.read(buf).map_err(|_| Failed)
    }
}

impl<W: Write> Writer for W {
    ghost holds = { W.contents };

    ghost write_gives = { λ _ _ _ _. Unit {0} };

    ghost flush_gives = { λ _ _ _. Unit {0} };

    fn write_once(&mut self, piece: &[u8]) -> Result<usize, Failed> {
        self.write(piece).map_err(|_| Failed)
    }

    fn flush_once(&mut self) -> Result<(), Failed> {
        self.flush().map_err(|_| Failed)
    }
}
