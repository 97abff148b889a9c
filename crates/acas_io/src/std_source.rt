// The program's edge at its input: a source over any reader.
ghost use Rattle.std.specs.Prelude.{◌≡◌, length};
ghost use Rattle.std.specs.Io.{ReadsAtMost};
ghost use Rattle.std.specs.Io.KnownBytes.{ReadConsumes};
ghost use Rattle.acas_io.specs.Faults.{CountsOne};

use crate::{Failed, Reader, Source};

/// A source over a reader, which counts the reads that fail.
///
/// The bytes left are known where the reader's are: those of a slice are known, those of standard input aren't. std's
/// `Read` promises that a reader whose bytes are known keeps them at an error. So nothing is lost at a fault, and the
/// bytes left are still known after it.
#[derive(Drop)]
pub struct StdSource<R> {
    inner: R,
    faults: u64,
}

impl<R: Reader> StdSource<R> {
    ghost use Rattle.acas_io.specs.Adapters.{source_reader, source_faults};

    /// Over this reader, with no fault counted.
    pub fn new(inner: R) -> StdSource<R>
        ensures reader { source_reader result ≡ inner }
        ensures faults { source_faults result ≡ 0 }
    {
        StdSource { inner, faults: 0 }
    }
}

impl<R: Reader> Source for StdSource<R> {
    ghost use Rattle.acas_io.specs.Adapters.{source_reader, source_faults};

    ghost left = { λ s. R.left s.inner };

    ghost faults = { λ s. s.faults };

    fn read(&mut self, buf: &mut [u8]) -> Result<usize, Failed>
        ensures bound { ReadsAtMost result buf.new }
        ensures bytes { ReadConsumes (R.left (source_reader self.old)) (R.left (source_reader self.new)) result buf.new }
        ensures count { CountsOne (source_faults self.old) (source_faults self.new) result }

        // One call of the reader gave all of it.
        ensures once { R.read_gives (source_reader self.old) (length buf.old) result buf.new (source_reader self.new) }
    {
        let result = self.inner.read_once(buf);
        if result.is_err() {
            self.faults = self.faults.saturating_add(1);
        }
        result
    }

    fn faults(&self) -> u64
        ensures { result ≡ source_faults self.now }
    {
        self.faults
    }
}
