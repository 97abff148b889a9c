// Pieces of a text, gathered in a fixed buffer before they are written.
ghost use Rattle.std.specs.Prelude.{◌≡◌, ◌+◌, ◌≤◌, ◌<◌, ◌++◌, [], length, IfOk};
ghost use Rattle.acas_io.specs.Stream.{Puts};
ghost use Rattle.acas_lines.specs.Gathering.{Adds};

use acas_io::{Failed, Sink, write_all};
use std::marker::Model;

// How much is gathered at most before it is written.
const BATCH_BYTES: usize = 8192;

/// The bytes of a text that wait to be written, at most 8,192. They are written when they are that many, or when
/// `flush` is called. So a text of n bytes takes at most n/8192 + 1 writes of a sink that takes whole pieces. It takes
/// no memory.
///
/// In each call `Failed` comes only where the sink's count of faults rose. Then a front of the bytes that waited and
/// were added has been written.
#[derive(Drop)]
pub(crate) struct Batch {
    bytes: [u8; BATCH_BYTES],
    len: usize,
}

impl Model for Batch {
    ghost use Rattle.std.specs.Prelude.{ℕ, List, ◌≤◌, take};

    ghost Value = { List ℕ };

    ghost view = { λ a. take a.len a.bytes };

    ghost invariant = { λ a. a.len ≤ 8192 };
}

impl Batch {
    /// Nothing waits.
    pub fn new() -> Batch
        ensures { result ≡ [] }
    {
        Batch {
            bytes: [0; BATCH_BYTES],
            len: 0,
        }
    }

    fn room(&self) -> usize
        ensures { result + length self.now ≡ 8192 }
    {
        BATCH_BYTES - self.len
    }

    fn append(&mut self, piece: &[u8])
        requires { length self.old + length piece.now ≤ 8192 }
        ensures { self.new ≡ self.old ++ piece.now }
    {
        let end = self.len + piece.len();
        self.bytes[self.len..end].copy_from_slice(piece);
        self.len = end;
    }

    fn waiting(&self) -> &[u8]
        ensures { result.now ≡ self.now }
    {
        &self.bytes[..self.len]
    }

    fn clear(&mut self)
        ensures { self.new ≡ [] }
    {
        self.len = 0;
    }

    /// Writes all that waits. Nothing waits afterwards, whatever the answer is.
    pub fn flush<K: Sink>(&mut self, sink: &mut K) -> Result<(), Failed>
        ensures puts { Puts (K.written sink.old) (K.written sink.new) (K.faults sink.old) (K.faults sink.new) self.old result }
        ensures empty { self.new ≡ [] }
    {
        let written = write_all(sink, self.waiting());
        self.clear();
        written
    }

    // Adds as much of a piece as there is room for, writes what waits, and adds the rest. It is a function of its own:
    // inside `put` it would keep that call from being inlined, and a serial run of sixteen aircraft would take 3 per
    // cent more instructions.
    #[inline(never)]
    fn put_over<K: Sink>(&mut self, sink: &mut K, piece: &[u8]) -> Result<(), Failed>
        requires most { length piece.now ≤ 8192 }
        requires over { 8192 < length self.old + length piece.now }
        ensures adds { Adds (K.written sink.old) (K.written sink.new) (K.faults sink.old) (K.faults sink.new) self.old self.new piece.now result }
        ensures full { IfOk result (λ _. length self.new + 8192 ≡ length self.old + length piece.now) }
    {
        let (front, rest) = piece.split_at(self.room());
        self.append(front);
        self.flush(sink)?;
        self.append(rest);
        Ok(())
    }

    /// Adds a piece. Where there is room for all of it, the sink isn't called. Else it adds as much as there is room
    /// for, writes what waits, and lets the rest wait.
    pub fn put<K: Sink>(&mut self, sink: &mut K, piece: &[u8]) -> Result<(), Failed>
        requires { length piece.now ≤ 8192 }
        ensures adds { Adds (K.written sink.old) (K.written sink.new) (K.faults sink.old) (K.faults sink.new) self.old self.new piece.now result }
        ensures unwritten { length self.old + length piece.now ≤ 8192 → sink.new ≡ sink.old }
        ensures full { 8192 < length self.old + length piece.now → IfOk result (λ _. length self.new + 8192 ≡ length self.old + length piece.now) }
    {
        if piece.len() > self.room() {
            return self.put_over(sink, piece);
        }
        self.append(piece);
        Ok(())
    }
}
