// Entries, read where they are kept.
ghost use Rattle.std.specs.Prelude.{◌≡◌};
ghost use Rattle.air_journal.specs.EntryRefs.{entry_of};

use acas_base::{Cells, Entry};

/// An entry with the cells of a commit where they are kept. All else is as in [`Entry`].
#[derive(Clone, Copy)]
pub enum EntryRef<'a> {
    Commit {
        own: u8,
        cycle: u16,
        cells: &'a Cells,
    },
    Send {
        own: u8,
        target: u8,
        number: u16,
        word: u64,
    },
    Take {
        own: u8,
        send: u32,
        copy: u8,
        good: bool,
    },
}

impl<'a> EntryRef<'a> {
    /// The entry itself.
    pub fn entry(&self) -> Entry
        ensures { result ≡ entry_of self.now }
    {
        match *self {
            EntryRef::Commit { own, cycle, cells } => Entry::Commit {
                own,
                cycle,
                cells: *cells,
            },
            EntryRef::Send {
                own,
                target,
                number,
                word,
            } => Entry::Send {
                own,
                target,
                number,
                word,
            },
            EntryRef::Take {
                own,
                send,
                copy,
                good,
            } => Entry::Take {
                own,
                send,
                copy,
                good,
            },
        }
    }
}
