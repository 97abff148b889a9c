// Verdicts on recordings.
ghost use Rattle.std.specs.Prelude.{◌≡◌};
ghost use Rattle.rec_audit.specs.Reasons.{reason_number};

use air_journal::AirState;
use enc_file::Code;

/// Why a line of a recording is wrong: the reason of the judge's first step that fails.
#[derive(Clone, Copy, PartialEq, Eq)]
pub enum Reason {
    /// The lines up to the first `end` are refused as an encounter, with this code.
    Encounter(Code),
    /// The line isn't spelled like any that can stand there, or it is missing. Or the encounter's text isn't its
    /// canonical text.
    Spelling,
    /// After the entries before it, no commit of this aircraft and cycle, send of this pair, or take of this copy is
    /// allowed.
    NotAllowed,
    /// The allowed entry about the same thing is another one.
    OtherContent,
    /// The entries end before every active aircraft has all its commits and owes nothing.
    Incomplete,
    /// The rest isn't the report of the journal and the close. This line differs, is missing, or is one too many.
    Report,
}

impl Reason {
    /// The number of the reason, as the line of a verdict has it.
    pub fn number(self) -> u8
        ensures { result ≡ reason_number self }
    {
        match self {
            Reason::Encounter(_) => 1,
            Reason::Spelling => 2,
            Reason::NotAllowed => 3,
            Reason::OtherContent => 4,
            Reason::Incomplete => 5,
            Reason::Report => 6,
        }
    }
}

/// The verdict on a recording.
#[derive(Clone, Copy, PartialEq, Eq)]
pub enum Verdict {
    /// It is the recording of a legal and complete journal with this many entries.
    Legal(u32),
    /// The first wrong line, from 1, and why it is wrong.
    Wrong(u32, Reason),
}

/// What loading a recording gives.
#[derive(Drop)]
pub enum Loaded {
    /// The encounter and the journal.
    Legal(AirState),
    /// The first wrong line, from 1, and why it is wrong.
    Wrong(u32, Reason),
}
