// What can befall a message.

/// What can befall a message that was sent. More than one of these can befall one message.
#[derive(Clone, Copy)]
pub enum Mishap {
    /// It has no copies.
    Lost,
    /// At least one copy was taken, and no take was good.
    Spoilt,
    /// A copy is held back for a commit of the receiver or more.
    HeldBack,
    /// It has two copies or more.
    Repeated,
    /// A copy wasn't taken by the end of the journal.
    Untaken,
}
