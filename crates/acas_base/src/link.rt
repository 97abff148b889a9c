// What happens to messages on their way.

/// What happens to one copy of a message. The receiver may take it once it has made `hold` commits after the send. The
/// bits that `mask` names are flipped then.
#[derive(Clone, Copy, PartialEq, Eq)]
pub struct CopyPlan {
    pub hold: u8,
    pub mask: u8,
}

/// The copies of the message with this `number`, from 1, of one sender to one receiver. The first `copies` of the three
/// plans count, and the others are zero.
#[derive(Clone, Copy, PartialEq, Eq)]
pub struct Fate {
    pub sender: u8,
    pub receiver: u8,
    pub number: u16,
    pub copies: u8,
    pub first: CopyPlan,
    pub second: CopyPlan,
    pub third: CopyPlan,
}

/// The copies of every message of one sender to one receiver that has no fate of its own.
#[derive(Clone, Copy)]
pub struct LinkPlan {
    pub sender: u8,
    pub receiver: u8,
    pub copies: u8,
    pub first: CopyPlan,
    pub second: CopyPlan,
    pub third: CopyPlan,
}
