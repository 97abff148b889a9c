// What is kept beside the journal, of an aircraft and of a pair.
use acas_base::{Cell, Vrc};

/// A copy of a message that was sent and isn't taken yet.
#[derive(Clone, Copy, PartialEq, Eq)]
pub struct Waiting {
    /// The position of the send in the journal.
    pub send: u32,
    /// Which copy of the message it is, from 0.
    pub copy: u8,
    /// The copy is due as soon as its receiver has made this many commits.
    pub due: u16,
    /// The complement that its taker reads; none where the copy is spoilt.
    pub reads: Option<Vrc>,
}

/// The complement of the last good take of a message of another aircraft, and how many commits the taker
/// had made then.
#[derive(Clone, Copy)]
pub struct Complement {
    pub vrc: Vrc,
    pub commits: u16,
}

/// What is kept of an aircraft against another one: its cell in the last commit, the complement of the
/// last message sent to it, how many messages were sent to it, whether one was sent since the last
/// commit, and the complement of the last good take from it.
#[derive(Clone, Copy)]
pub struct Link {
    pub cell: Cell,
    pub said: Vrc,
    pub sends: u16,
    pub sent: bool,
    pub complement: Option<Complement>,
}

/// What is kept of an aircraft: how many cycles it has committed, and whether its last commit has two or
/// more resolution advisories.
#[derive(Clone, Copy)]
pub struct Made {
    pub commits: u16,
    pub many: bool,
}
