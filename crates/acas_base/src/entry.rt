// The journal's entries.
use crate::Cells;

/// One entry of the journal. It names aircraft by their indices, and a send by its position in the journal, from 0.
#[derive(Clone, Copy, PartialEq, Eq)]
pub enum Entry {
    /// `own` ends a cycle with these cells.
    Commit {
        own: u8,
        cycle: u16,
        cells: Cells,
    },
    /// `own` sends a message to `target`. `number` counts its messages to that one, from 1. `word` has the message's 56
    /// bits.
    Send {
        own: u8,
        target: u8,
        number: u16,
        word: u64,
    },
    /// `own` takes a copy, from 0, of a message. `good` says whether its word reads as a message.
    Take {
        own: u8,
        send: u32,
        copy: u8,
        good: bool,
    },
}
