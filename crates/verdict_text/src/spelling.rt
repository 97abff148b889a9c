// The fields of the lines of entries, by name.

/// A kind of entry.
#[derive(Clone, Copy)]
pub enum EntryKind {
    Commit,
    Send,
    Take,
}

/// A field of an entry's line after the first one, which names the kind.
#[derive(Clone, Copy)]
pub enum EntryField {
    Own,
    Cycle,
    Target,
    Number,
    Word,
    Position,
    Copy,
    Outcome,
    /// The cell of a commit for the aircraft at this place.
    Cell { other: u8 },
    /// The cell of a commit in the place of its own aircraft, which is this one.
    OwnCell { own: u8 },
}
