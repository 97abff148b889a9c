// What a source and a sink of bytes are, and why one fails.
ghost use Rattle.std.specs.Prelude.{◌≡◌, ℕ, List};
ghost use Rattle.std.specs.declared.option.Option.{Option};
ghost use Rattle.std.specs.Io.{ReadsAtMost};
ghost use Rattle.std.specs.Io.KnownBytes.{ReadConsumes};
ghost use Rattle.acas_io.specs.Faults.{CountsOne};
ghost use Rattle.acas_io.specs.Stream.{Writes};
ghost use Rattle.acas_io.specs.declared.stream.InError.TheVariants.{OutOfMemory};

use std::alloc::AllocError;
use thiserror::Error;

/// A read or a write failed. The count of the source or the sink has risen by one.
#[derive(Clone, Copy, Debug, PartialEq, Eq, Error)]
#[error("a read or a write failed")]
pub struct Failed;

/// Why a source was not read to its end.
#[derive(Clone, Copy, Debug, PartialEq, Eq, Error)]
pub enum InError {
    /// A read failed. The source's count has risen.
    #[error("a read failed")]
    ReadFault,
    /// The source gave more bytes than the limit.
    #[error("the input is too long")]
    TooLong,
    /// No memory was found for what the source gave.
    #[error("out of memory")]
    OutOfMemory,
}

impl From<AllocError> for InError {
    ghost from_gives = { λ _ e. e ≡ OutOfMemory };

    fn from(_: AllocError) -> Self {
        InError::OutOfMemory
    }
}

/// Where bytes come from.
pub trait Source {
    /// The bytes still to come, where they are known.
    ghost left: { Self → Option (List ℕ) };

    /// How often a read has failed. The count stops at the last value of 64 bits.
    ghost faults: { Self → ℕ };

    /// Reads some bytes into the front of `buf`, and gives how many. 0 for a `buf` that isn't empty means the end, and
    /// nothing else does: a source that has bytes left gives at least one.
    ///
    /// Where what is left is known before a call, it is known after the call. After `Failed` the same bytes are left.
    fn read(&mut self, buf: &mut [u8]) -> Result<usize, Failed>
        ensures bound { ReadsAtMost result buf.new }
        ensures bytes { ReadConsumes (left self.old) (left self.new) result buf.new }
        ensures count { CountsOne (faults self.old) (faults self.new) result };

    /// The count of faults, which never falls. It stays at the last value of a `u64` once it is there.
    fn faults(&self) -> u64
        ensures { result ≡ faults self.now };
}

/// Where bytes go.
pub trait Sink {
    /// The bytes that were written, where they are known.
    ghost written: { Self → Option (List ℕ) };

    /// How often a write has failed. The count stops at the last value of 64 bits.
    ghost faults: { Self → ℕ };

    /// Writes some bytes of the front of `piece`, and gives how many: at least one, unless `piece` is empty.
    ///
    /// Where what was written is known after a call, it was known before it. After `Failed` nothing was added.
    fn write(&mut self, piece: &[u8]) -> Result<usize, Failed>
        ensures bytes { Writes (written self.old) (written self.new) piece.now result }
        ensures count { CountsOne (faults self.old) (faults self.new) result };

    /// The count of faults, which never falls. It stays at the last value of a `u64` once it is there.
    fn faults(&self) -> u64
        ensures { result ≡ faults self.now };
}
