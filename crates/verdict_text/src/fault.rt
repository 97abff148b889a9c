// What is wrong with a recording, as a value.
use crate::causes::{CommitCause, Lack, SendCause, TakeCause};
use crate::spelling::{EntryField, EntryKind};
use crate::wanted::Wanted;

/// What is wrong with a recording, and where.
#[derive(Clone, Copy)]
pub struct Fault<'a> {
    /// The line of the recording, from 1.
    pub line: u32,
    /// What is wrong.
    pub why: Why<'a>,
}

/// What stands in a line of a recording.
#[derive(Clone, Copy)]
pub enum Found<'a> {
    /// There is no such line.
    Missing,
    /// These bytes, and then a line feed.
    Whole(&'a [u8]),
    /// These bytes. No line feed stands behind them.
    Unfinished(&'a [u8]),
}

/// Why a line of a recording can't stand there. Aircraft are named by their indices, and messages by the positions of
/// their sends.
#[derive(Clone, Copy)]
pub enum Why<'a> {
    /// A byte order mark stands in front of the line.
    Mark,
    /// A carriage return stands in the line.
    CarriageReturn,
    /// The line has to be this one.
    OtherLine {
        wanted: &'a Wanted,
        found: Found<'a>,
    },
    /// The line is one too many.
    TooMany,
    /// No line is `end`.
    NoEnd,
    /// The line isn't as the canonical text of the encounter has it: there it is this one.
    NotCanonical {
        wanted: &'a Wanted,
    },
    /// The line has to tell the number of entries.
    NoCount {
        found: Found<'a>,
    },
    /// The line of an entry is missing. So many entries are announced, and so many stand here.
    NoEntry {
        announced: u32,
        entries: u32,
    },
    /// The report begins in place of the line of an entry. So many entries are announced, and so many stand before it.
    EarlyReport {
        announced: u32,
        entries: u32,
    },
    /// No line feed stands behind the line of an entry.
    Unfinished {
        found: &'a [u8],
    },
    /// The first field names no kind of entry.
    NoKind {
        found: &'a [u8],
    },
    /// An entry of this kind hasn't so many fields, where there are so many aircraft.
    FieldCount {
        kind: EntryKind,
        crafts: u8,
        fields: u32,
    },
    /// What stands in the field isn't of its form, where there are so many aircraft.
    NoValue {
        name: EntryField,
        crafts: u8,
        found: &'a [u8],
    },
    /// The aircraft may not commit the cycle here.
    NoCommit {
        own: u8,
        cycle: u16,
        cause: CommitCause,
    },
    /// The aircraft may not send to the other one here.
    NoSend {
        own: u8,
        target: u8,
        cause: SendCause,
    },
    /// The aircraft may not take the copy here.
    NoTake {
        own: u8,
        send: u32,
        copy: u8,
        cause: TakeCause,
    },
    /// The entry that is allowed here about the same thing has this line.
    OtherContent {
        wanted: &'a Wanted,
    },
    /// The entries end too early.
    Incomplete {
        lack: Lack,
    },
}
