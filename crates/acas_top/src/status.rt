// How a run ends.
ghost use Rattle.std.specs.Prelude.{◌≡◌};
ghost use Rattle.acas_top.specs.Statuses.{status_number};

/// How a run ended.
#[derive(Clone, Copy, Debug, PartialEq, Eq)]
pub enum Status {
    /// The whole output was written. Where the command reads an input, it was read to its end.
    Done,
    /// The words are no command. Nothing was read or written.
    Usage,
    /// The input was read to its end, and it is no encounter. The line of the refusal was written.
    Refused,
    /// The input was read to its end, and it is no right recording (for `resume`, no beginning of one). The line of the
    /// verdict was written.
    Wrong,
    /// A read failed. Nothing was written.
    ReadFault,
    /// A write failed. The beginning of the output was written, or nothing.
    WriteFault,
    /// The input has more bytes than the limit. Nothing was written.
    TooLong,
    /// Memory was wanting. Nothing was written.
    OutOfMemory,
}

impl Status {
    /// The exit status of the program.
    pub fn code(self) -> u8
        ensures { result ≡ status_number self }
    {
        match self {
            Status::Done => 0,
            Status::Usage => 2,
            Status::Refused => 3,
            Status::Wrong => 4,
            Status::ReadFault => 5,
            Status::WriteFault => 6,
            Status::TooLong => 7,
            Status::OutOfMemory => 8,
        }
    }
}
