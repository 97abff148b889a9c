// Why a text is refused.
ghost use Rattle.std.specs.Prelude.{◌≡◌};
ghost use Rattle.enc_file.specs.Codes.{code_number};
ghost use Rattle.enc_file.specs.declared.refusal.ReadError.TheVariants.{OutOfMemory, Refused};

use std::alloc::{AllocError, AllocFailed};
use thiserror::Error;

/// What is wrong with a record. Where it has several faults, the one with the lowest number is reported.
#[derive(Clone, Copy, Debug, PartialEq, Eq)]
pub enum Code {
    /// The first record isn't a header of format 1, 2 or 3, or there is no record at all.
    Header,
    /// The first field isn't a kind of record of the text's format.
    Kind,
    /// The number of fields isn't one that this kind of record has.
    Fields,
    /// A number isn't a plain decimal or is out of its range; the kind of an aircraft isn't one of the three words; a
    /// mask isn't two digits 0-9A-F; a name, a time of day or a call sign has another form; the last cycle of a miss is
    /// before its first.
    Number,
    /// An address isn't six digits 0-9A-F, or is 000000 or FFFFFF.
    Address,
    /// The record gives what was given before, or it doesn't come after what was given before.
    Repeat,
    /// No earlier `craft` record has this address, or the two addresses are equal.
    Unknown,
    /// There are too many aircraft; at the end there is no run, no profile in format 3, or no aircraft of kind RA
    /// or TA.
    Count,
    /// At the end: an aircraft leaves the box in some cycle of the run.
    Box,
    /// A mask has more than three bits set.
    Mask,
    /// There is no `end`. The number of the record is one more than that of the last record.
    NoEnd,
    /// The record stands after `end`.
    After,
}

impl Code {
    /// The number of the code, as the line of a refusal has it.
    pub fn number(self) -> u8
        ensures { result ≡ code_number self }
    {
        match self {
            Code::Header => 1,
            Code::Kind => 2,
            Code::Fields => 3,
            Code::Number => 4,
            Code::Address => 5,
            Code::Repeat => 6,
            Code::Unknown => 7,
            Code::Count => 8,
            Code::Box => 9,
            Code::Mask => 10,
            Code::NoEnd => 11,
            Code::After => 12,
        }
    }
}

/// A refusal: the number of the refused record, from 1, and why it is refused.
#[derive(Clone, Copy, Debug, PartialEq, Eq)]
pub struct Refusal {
    pub at: u32,
    pub code: Code,
}

/// Why no encounter was read.
#[derive(Clone, Copy, Debug, Error)]
pub enum ReadError {
    /// The text says no encounter.
    #[error("the text is refused")]
    Refused(Refusal),
    /// Memory was wanting.
    #[error("out of memory")]
    OutOfMemory,
}

impl From<AllocError> for ReadError {
    ghost from_gives = { λ _ e. e ≡ OutOfMemory };

    fn from(_: AllocError) -> Self {
        ReadError::OutOfMemory
    }
}

impl<T: Drop> From<AllocFailed<T>> for ReadError {
    ghost from_gives = { λ _ e. e ≡ OutOfMemory };

    fn from(_: AllocFailed<T>) -> Self {
        ReadError::OutOfMemory
    }
}
