// The words of the table, and what a seat at it knows. No value of `Knowledge` is made: the table keeps it for the
// contracts alone.
use acas_base::{CRAFTS, Encounter, Entry};
use air_journal::AirState;
use atomic_table::{Table, TableRule};
use std::alloc::Global;
use std::collections::LinkedList;
use std::snapshot::Snapshot;

/// The word with the number of tickets drawn.
pub const TICKETS: usize = 0;

/// The word with the length of the journal.
pub const LENGTH: usize = 1;

/// The first of the serving words: there is one for each ticket that can be out.
pub const SERVING: usize = 2;

/// The number of words.
pub const WORDS: usize = SERVING + CRAFTS;

/// The journal as it was last seen, and the place of the latest call known then.
pub struct Seen {
    pub front: LinkedList<Entry>,
    pub count: u64,
}

/// What the seat of one aircraft has: how many calls it has made, and what it has seen.
pub struct Claim {
    pub own: u8,
    pub made: u64,
    pub seen: Seen,
}

/// Where a seat is in a call.
pub enum Stage {
    /// In none.
    Idle,
    /// It has this ticket.
    Waits(u64),
    /// It has the turn: its ticket, the journal, and how many calls there were.
    Holds(u64, LinkedList<Entry>, u64),
}

/// What a seat knows: the encounter, its stage, its claims and its notes. A seat has the claim of one aircraft. While
/// the table is opened and closed, a seat may have the claims of several. A note has no claim.
pub struct Knowledge {
    pub encounter: Encounter,
    pub stage: Stage,
    pub claims: LinkedList<Claim>,
    pub notes: LinkedList<Seen>,
}

/// The rule of the table.
pub struct TurnRule;

impl TableRule<Option<AirState>, Knowledge, Snapshot<AirState>> for TurnRule {
    ghost use Rattle.air_turn.specs.Rule.{HoldsThroughout, at_start};

    ghost holds = { λ key. HoldsThroughout key.value.encounter };

    ghost first = { λ key. at_start key.value };
}

/// The table of a shared journal.
pub type TurnTable = Table<Option<AirState>, Knowledge, Snapshot<AirState>, TurnRule, Global>;

/// A seat at this table.
pub type TurnSeat = atomic_table::Seat<Option<AirState>, Knowledge>;
