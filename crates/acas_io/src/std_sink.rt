// The program's edge at its output: a sink over any writer.
ghost use Rattle.std.specs.Prelude.{◌≡◌, ◌<◌, [], None, Ok, length};
ghost use Rattle.acas_io.specs.Faults.{CountsOne};
ghost use Rattle.acas_io.specs.Stream.{Writes};

use crate::{Failed, Sink, Writer};

/// A sink over a writer. It flushes the writer after each write, and counts the writes that fail.
///
/// A write fails where the writer fails, where it takes nothing of a piece that isn't empty, and where the flush after
/// it fails. So bytes may have gone out at a fault. What was written isn't known.
#[derive(Drop)]
pub struct StdSink<W> {
    inner: W,
    faults: u64,
}

impl<W: Writer> StdSink<W> {
    ghost use Rattle.acas_io.specs.Adapters.{Passes, WritesOnce, sink_writer, sink_faults};

    /// Over this writer, with no fault counted.
    pub fn new(inner: W) -> StdSink<W>
        ensures writer { sink_writer result ≡ inner }
        ensures faults { sink_faults result ≡ 0 }
    {
        StdSink { inner, faults: 0 }
    }

    // Writes once, and flushes what was taken.
    fn write_through(&mut self, piece: &[u8]) -> Result<usize, Failed>
        ensures bytes { Writes None None piece.now result }
        ensures once { WritesOnce W.write_gives W.flush_gives (sink_writer self.old) piece.now result (sink_writer self.new) }
        ensures passed { Passes (W.holds (sink_writer self.old)) (W.holds (sink_writer self.new)) piece.now result }
        ensures count { sink_faults self.new ≡ sink_faults self.old }
    {
        match self.inner.write_once(piece)? {
            0 => Err(Failed),
            count => {
                self.inner.flush_once()?;
                Ok(count)
            }
        }
    }
}

impl<W: Writer> Sink for StdSink<W> {
    ghost use Rattle.acas_io.specs.Adapters.{Passes, WritesOnce, sink_writer, sink_faults};

    ghost written = { λ _. None };

    ghost faults = { λ s. s.faults };

    fn write(&mut self, piece: &[u8]) -> Result<usize, Failed>
        ensures bytes { Writes None None piece.now result }
        ensures count { CountsOne (sink_faults self.old) (sink_faults self.new) result }

        // A piece that isn't empty is written by one call of the writer, and flushed by one call after it. An error of
        // these calls is the answer.
        ensures none { piece.now ≡ [] → (result ≡ Ok 0) × (sink_writer self.new ≡ sink_writer self.old) }
        ensures once { 0 < length piece.now
            → WritesOnce W.write_gives W.flush_gives (sink_writer self.old) piece.now result (sink_writer self.new) }

        // The writer got what the answer counts, and no more. At a fault it may have got a front of the piece.
        ensures passed { Passes (W.holds (sink_writer self.old)) (W.holds (sink_writer self.new)) piece.now result }
    {
        if piece.is_empty() {
            return Ok(0);
        }
        let result = self.write_through(piece);
        if result.is_err() {
            self.faults = self.faults.saturating_add(1);
        }
        result
    }

    fn faults(&self) -> u64
        ensures { result ≡ sink_faults self.now }
    {
        self.faults
    }
}
