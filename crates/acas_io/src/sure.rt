// A source and a sink in memory that never fail.
ghost use Rattle.std.specs.Prelude.{◌≡◌, [], min, length, Some, IsOkAnd, vec_capacity};
ghost use Rattle.std.specs.Io.{ReadsAtMost};
ghost use Rattle.std.specs.Io.KnownBytes.{ReadConsumes};
ghost use Rattle.acas_io.specs.Faults.{CountsOne};
ghost use Rattle.acas_io.specs.Fakes.{told, with_piece};
ghost use Rattle.acas_io.specs.Stream.{Writes};

use crate::memory::{copy_front, put_front};
use crate::{Failed, Sink, Source};
use std::marker::Model;

/// A source that gives its bytes, and never fails.
#[derive(Drop)]
pub struct SureSource {
    bytes: Vec<u8>,
    at: usize,
}

impl Model for SureSource {
    ghost use Rattle.std.specs.Prelude.{◌≤◌, ℕ, List, drop, vec_len};

    ghost Value = { List ℕ };

    ghost view = { λ s. drop s.at s.bytes.items };

    ghost invariant = { λ s. s.at ≤ vec_len s.bytes };
}

impl SureSource {
    /// Over these bytes.
    pub fn new(bytes: Vec<u8>) -> SureSource
        ensures { result ≡ bytes.items }
    {
        SureSource { bytes, at: 0 }
    }
}

impl Source for SureSource {
    ghost left = { λ bytes. Some bytes };

    ghost faults = { λ _. 0 };

    fn read(&mut self, buf: &mut [u8]) -> Result<usize, Failed>
        ensures bound { ReadsAtMost result buf.new }
        ensures bytes { ReadConsumes (Some self.old) (Some self.new) result buf.new }
        ensures count { CountsOne 0 0 result }

        // It gives all that there is room for.
        ensures size { IsOkAnd result (λ n. n ≡ min (length self.old) (length buf.old)) }
    {
        let most = buf.len();
        let count = copy_front(&self.bytes[self.at..], buf, most);
        self.at += count;
        Ok(count)
    }

    fn faults(&self) -> u64
        ensures { result ≡ 0 }
    {
        0
    }
}

/// A sink that takes all bytes and never fails. It holds the bytes that fit its room, and the room never grows.
///
/// It counts the bytes that it drops. What was written is known only as long as it dropped none.
#[derive(Drop)]
pub struct SureSink {
    room: Vec<u8>,
    dropped: u64,
}

impl Model for SureSink {
    ghost use Rattle.std.specs.Prelude.{vec_capacity};
    ghost use Rattle.acas_io.specs.Fakes.{RoomSink};

    ghost Value = { RoomSink };

    ghost view = { λ s. record { held = s.room.items; room = vec_capacity s.room; dropped = s.dropped } };
}

impl SureSink {
    /// With as much room as `room` has.
    pub fn new(room: Vec<u8>) -> SureSink
        requires { room.items ≡ [] }
        ensures { result ≡ record { held = []; room = vec_capacity room; dropped = 0 } }
    {
        SureSink { room, dropped: 0 }
    }

    /// The bytes that fitted.
    pub fn bytes(&self) -> &[u8]
        ensures { result.now ≡ self.now.held }
    {
        self.room.as_slice()
    }
}

impl Sink for SureSink {
    ghost written = { told };

    ghost faults = { λ _. 0 };

    fn write(&mut self, piece: &[u8]) -> Result<usize, Failed>
        ensures bytes { Writes (told self.old) (told self.new) piece.now result }
        ensures count { CountsOne 0 0 result }

        // It takes the whole piece, and holds the front that fits.
        ensures size { IsOkAnd result (λ n. n ≡ length piece.now) }
        ensures held { self.new ≡ with_piece self.old piece.now }
    {
        let most = self.room.capacity() - self.room.len();
        let count = put_front(&mut self.room, piece, most);
        let rest = (piece.len() - count) as u64;
        self.dropped = self.dropped.saturating_add(rest);
        Ok(piece.len())
    }

    fn faults(&self) -> u64
        ensures { result ≡ 0 }
    {
        0
    }
}
