// Why an aircraft may not make an entry, as values.

/// Why an aircraft may not commit a cycle: the first of these that holds, in this order.
#[derive(Clone, Copy)]
pub enum CommitCause {
    /// It makes no entries.
    Inactive,
    /// It has committed all cycles of the run: so many.
    Over { cycles: u16 },
    /// Its next cycle is this one.
    OtherCycle { next: u16 },
    /// It owes a message, first to this aircraft.
    Owes { target: u8 },
    /// A copy of the message sent at a position is due to it. It is the first one that is.
    Due { send: u32, copy: u8 },
    /// Another active aircraft has fewer commits, so many. It is the first such aircraft by index.
    Ahead { other: u8, commits: u16 },
}

/// Why an aircraft may not send a message to another one: the first of these that holds, in this order.
#[derive(Clone, Copy)]
pub enum SendCause {
    /// It makes no entries.
    Inactive,
    /// It owes no message to any aircraft.
    OwesNobody,
    /// The first aircraft that it owes a message is this one.
    OwesFirst { target: u8 },
}

/// Why an aircraft may not take a copy of a message: the first of these that holds, in this order.
#[derive(Clone, Copy)]
pub enum TakeCause {
    /// It makes no entries.
    Inactive,
    /// At that position no message was sent to it.
    NoMessage,
    /// The message has only so many copies.
    NoCopy { copies: u8 },
    /// It took the copy already, at this position.
    Taken { position: u32 },
    /// The copy is held back until it has made so many more commits.
    Held { commits: u16 },
}

/// What a journal lacks that isn't complete: the first of these that holds, in this order.
#[derive(Clone, Copy)]
pub enum Lack {
    /// An active aircraft has committed so many cycles, and not all. It is the first such aircraft by index.
    Commits { own: u8, commits: u16, cycles: u16 },
    /// One aircraft owes another one a message. They are the first such sender and receiver by index.
    Message { sender: u8, receiver: u8 },
}
