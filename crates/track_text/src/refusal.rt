// Why a text of tracks is refused.
ghost use Rattle.std.specs.Prelude.{◌≡◌};
ghost use Rattle.track_text.specs.Codes.{fault_number};
ghost use Rattle.track_text.specs.declared.refusal.ReadError.TheVariants.{OutOfMemory, Refused};

use enc_file::Code;
use std::alloc::{AllocError, AllocFailed};
use thiserror::Error;
use track_file::TrackFault;

/// What is wrong with a record. Where it has several faults, the one with the lowest number is reported.
#[derive(Clone, Copy, Debug, PartialEq, Eq)]
pub enum Fault {
    /// A fault that the text of an encounter can have, too. It isn't `Box`.
    Text(Code),
    /// At the end: the aircraft can't fly along their tracks. Beside the fault stands the number of the address of the
    /// aircraft at fault.
    Track(TrackFault, u32),
}

impl Fault {
    /// The number of its code, as the line of a refusal has it.
    pub fn number(self) -> u8
        ensures { result ≡ fault_number self }
    {
        match self {
            Fault::Text(code) => code.number(),
            Fault::Track(TrackFault::Cover { .. }, _) => 13,
            Fault::Track(TrackFault::Rate { .. }, _) => 14,
        }
    }
}

/// A refusal: the number of the refused record, from 1, and why it is refused.
#[derive(Clone, Copy, Debug, PartialEq, Eq)]
pub struct Refusal {
    pub at: u32,
    pub fault: Fault,
}

impl Refusal {
    /// The number of the code.
    pub fn number(&self) -> u8
        ensures { result ≡ fault_number self.now.fault }
    {
        self.fault.number()
    }
}

/// Why no encounter was read.
#[derive(Clone, Copy, Debug, Error)]
pub enum ReadError {
    /// The text says no tracks along which aircraft can fly.
    #[error("the text is refused")]
    Refused(Refusal),
    /// Memory was wanting.
    #[error("out of memory")]
    OutOfMemory,
}

impl From<AllocError> for ReadError {
    ghost from_gives = { λ _ e. e ≡ OutOfMemory };

    fn from(_: AllocError) -> Self {
        ReadError::OutOfMemory
    }
}

impl<T: Drop> From<AllocFailed<T>> for ReadError {
    ghost from_gives = { λ _ e. e ≡ OutOfMemory };

    fn from(_: AllocFailed<T>) -> Self {
        ReadError::OutOfMemory
    }
}
