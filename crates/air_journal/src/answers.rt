// What the calls answer. A position is an entry's place in the journal, from 0.

/// What a commit answers: the first of these that holds, in this order.
#[derive(Clone, Copy, PartialEq, Eq)]
pub enum Commit {
    /// All cycles are committed.
    Over,
    /// A message is owed, first to this aircraft.
    Owed(u8),
    /// A copy is due: this is the first, by the position of its send and by its number.
    Due(u32, u8),
    /// Other aircraft have fewer commits: the first of them by index, and how many it has.
    Ahead(u8, u16),
    /// The commit is the entry at this position.
    Done(u32),
}

/// What a send answers.
#[derive(Clone, Copy, PartialEq, Eq)]
pub enum Sent {
    /// The send is the entry at this position.
    Done(u32),
    /// Nothing is owed.
    Nothing,
}

/// What a take answers.
#[derive(Clone, Copy, PartialEq, Eq)]
pub enum Took {
    /// The take is the entry at this position, and whether it was good.
    Done(u32, bool),
    /// Nothing is due.
    Nothing,
}

/// What the take of one copy answers.
#[derive(Clone, Copy, PartialEq, Eq)]
pub enum TookThis {
    /// The take is the entry at this position, and whether it was good.
    Done(u32, bool),
    /// The copy isn't due.
    NotDue,
}
