// A source and a sink in memory. The calls that their makers name fail.
ghost use Rattle.std.specs.Prelude.{◌≡◌, ◌+◌, ◌-◌, ◌<◌, ◌≤◌, ◌↔◌, ◌⊎◌, ◌++◌, [], min, length, take, drop, Some, IsErr, IsTrue, IfOk, Contains, vec_len, vec_capacity};
ghost use Rattle.std.specs.Io.{ReadsAtMost};
ghost use Rattle.std.specs.Io.KnownBytes.{ReadConsumes};
ghost use Rattle.acas_io.specs.Faults.{CountsOne, one_more};
ghost use Rattle.acas_io.specs.Stream.{Writes};

use crate::{Failed, Sink, Source};
use std::marker::Model;

// Whether the call after `done` calls is one that fails.
fn is_next(fails: &[u64], done: u64) -> bool
    ensures { IsTrue result ↔ Contains fails.now (done + 1) }
{
    match done.checked_add(1) {
        Some(number) => fails.contains(&number),
        None => false,
    }
}

// Copies the front of what is left into the front of a buffer, at most `most` bytes, and gives how many.
pub(crate) fn copy_front(left: &[u8], buf: &mut [u8], most: usize) -> usize
    ensures size { result ≡ min (min (length left.now) (length buf.old)) most }
    ensures front { take result buf.new ≡ take result left.now }
{
    let count = left.len().min(buf.len()).min(most);
    buf[..count].copy_from_slice(&left[..count]);
    count
}

// Adds the front of a piece, at most `most` bytes, in the room that is there, and gives how many.
pub(crate) fn put_front(room: &mut Vec<u8>, piece: &[u8], most: usize) -> usize
    requires { vec_len room.old + most ≤ vec_capacity room.old }
    ensures size { result ≡ min (length piece.now) most }
    ensures written { room.new.items ≡ room.old.items ++ take result piece.now }
    ensures room { vec_capacity room.new ≡ vec_capacity room.old }
{
    let count = piece.len().min(most);

    // `insert` says that the room stays where a place is free. `push` doesn't say so.
    for byte in &piece[..count] {
        let end = room.len();
        room.insert(end, *byte).unwrap();
    }
    count
}

/// A source that gives its bytes in pieces of bounded size. It has a list of the reads that fail, by number from 1.
#[derive(Drop)]
pub struct MemSource {
    bytes: Vec<u8>,
    at: usize,
    piece: usize,
    fails: Vec<u64>,
    reads: u64,
    faults: u64,
}

impl Model for MemSource {
    ghost use Rattle.std.specs.Prelude.{◌≤◌, ◌<◌, drop, vec_len};
    ghost use Rattle.acas_io.specs.Fakes.{MemorySource};

    ghost Value = { MemorySource };

    ghost view = { λ s. record { left = drop s.at s.bytes.items; piece = s.piece; fails = s.fails.items; reads = s.reads; faults = s.faults } };

    ghost invariant = { λ s. (s.at ≤ vec_len s.bytes) × (0 < s.piece) };
}

impl MemSource {
    /// Over these bytes. A read gives at most `piece` of them. The reads whose numbers are in `fails` fail.
    pub fn new(bytes: Vec<u8>, piece: usize, fails: Vec<u64>) -> MemSource
        requires { 0 < piece }
        ensures { result ≡ record { left = bytes.items; piece = piece; fails = fails.items; reads = 0; faults = 0 } }
    {
        MemSource {
            bytes,
            at: 0,
            piece,
            fails,
            reads: 0,
            faults: 0,
        }
    }
}

impl Source for MemSource {
    ghost left = { λ s. Some s.left };

    ghost faults = { λ s. s.faults };

    fn read(&mut self, buf: &mut [u8]) -> Result<usize, Failed>
        ensures bound { ReadsAtMost result buf.new }
        ensures bytes { ReadConsumes (Some self.old.left) (Some self.new.left) result buf.new }
        ensures count { CountsOne self.old.faults self.new.faults result }

        // Exactly the reads with these numbers fail. The others give all that there is room for.
        ensures fails { IsErr result ↔ Contains self.old.fails (self.old.reads + 1) }
        ensures size { IfOk result (λ n. n ≡ min (min (length self.old.left) (length buf.old)) self.old.piece) }
        ensures stays { (self.new.piece ≡ self.old.piece) × (self.new.fails ≡ self.old.fails) }
        ensures reads { self.new.reads ≡ one_more self.old.reads }
    {
        let failing = is_next(self.fails.as_slice(), self.reads);
        self.reads = self.reads.saturating_add(1);
        if failing {
            self.faults = self.faults.saturating_add(1);
            return Err(Failed);
        }
        let count = copy_front(&self.bytes[self.at..], buf, self.piece);
        self.at += count;
        Ok(count)
    }

    fn faults(&self) -> u64
        ensures { result ≡ self.now.faults }
    {
        self.faults
    }
}

/// A sink that takes bytes in pieces of bounded size, and holds them in a room that never grows. It has a list of the
/// writes that fail, by number from 1. A write of a piece that isn't empty fails, too, where no room is left.
#[derive(Drop)]
pub struct MemSink {
    room: Vec<u8>,
    piece: usize,
    fails: Vec<u64>,
    writes: u64,
    faults: u64,
}

impl Model for MemSink {
    ghost use Rattle.std.specs.Prelude.{◌<◌, vec_capacity};
    ghost use Rattle.acas_io.specs.Fakes.{MemorySink};

    ghost Value = { MemorySink };

    ghost view = { λ s. record { written = s.room.items; room = vec_capacity s.room; piece = s.piece; fails = s.fails.items; writes = s.writes; faults = s.faults } };

    ghost invariant = { λ s. 0 < s.piece };
}

impl MemSink {
    /// With as much room as `room` has. A write takes at most `piece` bytes. The writes whose numbers are in `fails`
    /// fail.
    pub fn new(room: Vec<u8>, piece: usize, fails: Vec<u64>) -> MemSink
        requires piece { 0 < piece }
        requires empty { room.items ≡ [] }
        ensures { result ≡ record { written = []; room = vec_capacity room; piece = piece; fails = fails.items; writes = 0; faults = 0 } }
    {
        MemSink {
            room,
            piece,
            fails,
            writes: 0,
            faults: 0,
        }
    }

    /// What was written.
    pub fn bytes(&self) -> &[u8]
        ensures { result.now ≡ self.now.written }
    {
        self.room.as_slice()
    }
}

impl Sink for MemSink {
    ghost written = { λ s. Some s.written };

    ghost faults = { λ s. s.faults };

    fn write(&mut self, piece: &[u8]) -> Result<usize, Failed>
        ensures bytes { Writes (Some self.old.written) (Some self.new.written) piece.now result }
        ensures count { CountsOne self.old.faults self.new.faults result }

        // Exactly two kinds of writes fail: those with these numbers, and those of a piece that isn't empty where no
        // room is left. The others take all that there is room for.
        ensures fails { IsErr result ↔ (Contains self.old.fails (self.old.writes + 1) ⊎ ((0 < length piece.now) × (self.old.room ≤ length self.old.written))) }
        ensures size { IfOk result (λ n. n ≡ min (length piece.now) (min self.old.piece (self.old.room - length self.old.written))) }
        ensures stays { (self.new.room ≡ self.old.room) × (self.new.piece ≡ self.old.piece) × (self.new.fails ≡ self.old.fails) }
        ensures writes { self.new.writes ≡ one_more self.old.writes }
    {
        let failing = is_next(self.fails.as_slice(), self.writes);
        self.writes = self.writes.saturating_add(1);
        if failing {
            self.faults = self.faults.saturating_add(1);
            return Err(Failed);
        }
        let most = self.piece.min(self.room.capacity() - self.room.len());
        if most == 0 && !piece.is_empty() {
            self.faults = self.faults.saturating_add(1);
            return Err(Failed);
        }
        Ok(put_front(&mut self.room, piece, most))
    }

    fn faults(&self) -> u64
        ensures { result ≡ self.now.faults }
    {
        self.faults
    }
}
