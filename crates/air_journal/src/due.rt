// The copies that are due, by the queues.
ghost use Rattle.std.specs.Prelude.{◌≡◌, ℕ, ◌<◌, ◌≤◌, MatchOption, MatchBool, length, option_map};
ghost use Rattle.acas_base.specs.declared.TheConstants.{CRAFTS};
ghost use Rattle.air_journal.specs.EntryRefs.{entry_of};
ghost use Rattle.air_journal.specs.Found.{AreOfTheirSenders, IsDueIn, IsDueInOne, IsLeast, NoneOf, NotDueIn, NotDueInAny, earlier, sender_at};
ghost use Rattle.air_journal.specs.Kept.{queue_at};
ghost use Rattle.air_journal.specs.Queues.{AreOrdered, IsFirstDueAt, NoneDue};
ghost use Rattle.air_rules.specs.Journal.{Sent, as_sent};

use crate::entry_ref::EntryRef;
use crate::journal::Journal;
use crate::kept::Waiting;
use crate::tables::{Front, Tables};
use acas_base::CRAFTS;

// How many messages are passed over at most before all queues are searched.
const MOST_TURNS: usize = 1800;

/// A due copy and its place in its queue.
#[derive(Clone, Copy)]
pub(crate) struct Due {
    pub place: usize,
    pub waiting: Waiting,
}

/// A due copy, its sender, and its place in the queue.
#[derive(Clone, Copy)]
pub(crate) struct Found {
    pub sender: u8,
    pub place: usize,
    pub waiting: Waiting,
}

// The first due copy of a queue, to a receiver that has made `made` commits.
fn first_due(queue: &[Waiting], made: u16) -> Option<Due>
    ensures { MatchOption result (NoneDue queue.now made) (λ due. IsFirstDueAt queue.now made due.place due.waiting) }
{
    for place in 0..queue.len() {
        let waiting = queue[place];
        if waiting.due <= made {
            return Some(Due { place, waiting });
        }
    }
    None
}

// Of two due copies the one of the earlier send.
fn earlier(best: Option<Found>, sender: u8, next: Option<Due>) -> Option<Found>
    ensures { result ≡ earlier best sender next }
{
    match (best, next) {
        (None, None) => None,
        (Some(best), None) => Some(best),
        (None, Some(next)) => Some(Found {
            sender,
            place: next.place,
            waiting: next.waiting,
        }),
        (Some(best), Some(next)) => if best.waiting.send <= next.waiting.send {
            Some(best)
        } else {
            Some(Found {
                sender,
                place: next.place,
                waiting: next.waiting,
            })
        },
    }
}

/// The first copy that is due to an aircraft that has made `made` commits, from the first `count` senders.
pub(crate) fn first_due_to(tables: &Tables, own: u8, made: u16, count: u8) -> Option<Found>
    requires own { own < CRAFTS }
    requires count { count ≤ CRAFTS }
    requires ordered { (sender : ℕ) → sender < count → AreOrdered (queue_at tables.now sender own) }
    ensures { MatchOption result (NoneOf tables.now own made count) (IsLeast tables.now own made count) }
{
    if tables.is_quiet(own) {
        return None;
    }
    let mut best = None;
    for sender in 0..count {
        let queue = tables.queue(sender, own);
        best = earlier(best, sender, first_due(queue, made));
    }
    best
}

/// The first copy that is due to an aircraft that has made `made` commits. Mostly it is a copy of the first message
/// to it, and no search is needed.
pub(crate) fn next_due(tables: &mut Tables, own: u8, made: u16) -> Option<Found>
    requires own { own < CRAFTS }
    requires ordered { (sender : ℕ) → sender < CRAFTS → AreOrdered (queue_at tables.old sender own) }
    ensures same { tables.new ≡ tables.old }
    ensures found { MatchOption result (NoneOf tables.old own made CRAFTS) (IsLeast tables.old own made CRAFTS) }
{
    // A message is passed over in each turn but the last.
    for _turn in 0..MOST_TURNS {
        match tables.front(own) {
            Front::Waits(sender) => {
                let first = tables.queue(sender, own)[0];
                if first.due <= made {
                    return Some(Found {
                        sender,
                        place: 0,
                        waiting: first,
                    });
                }
                return first_due_to(tables, own, made, CRAFTS as u8);
            }
            Front::Passed => {}
            Front::Unknown => return first_due_to(tables, own, made, CRAFTS as u8),
        }
    }
    first_due_to(tables, own, made, CRAFTS as u8)
}

// Whether what waits is this copy, and due.
fn is_this(waiting: Waiting, made: u16, send: u32, copy: u8) -> bool
    ensures { MatchBool result ((waiting.send ≡ send) × (waiting.copy ≡ copy) × (waiting.due ≤ made)) (waiting.send ≡ send → waiting.copy ≡ copy → made < waiting.due) }
{
    waiting.send == send && waiting.copy == copy && waiting.due <= made
}

// Where this copy stands in a queue, if it is due.
fn find_in(queue: &[Waiting], made: u16, send: u32, copy: u8) -> Option<Due>
    ensures { MatchOption result (NotDueIn queue.now made send copy) (IsDueIn queue.now made send copy) }
{
    for place in 0..queue.len() {
        let waiting = queue[place];
        if is_this(waiting, made, send, copy) {
            return Some(Due { place, waiting });
        }
    }
    None
}

// The sender of the message that an entry sends.
fn sender_of(entry: &EntryRef<'_>) -> Option<u8>
    ensures { result ≡ option_map (λ (sent : Sent). sent.sender) (as_sent (entry_of entry.now)) }
{
    match *entry {
        EntryRef::Send { own, .. } => Some(own),
        EntryRef::Commit { .. } | EntryRef::Take { .. } => None,
    }
}

// The sender of the message that was sent at a position.
fn sender_at(journal: &Journal, send: u32) -> Option<u8>
    ensures { result ≡ sender_at journal.now.entries send }
{
    match journal.entry(send as usize) {
        Some(entry) => sender_of(&entry),
        None => None,
    }
}

/// Where this copy stands, if it is due. The journal says who sent the message, so one queue is searched.
pub(crate) fn find_copy(
    journal: &Journal,
    tables: &Tables,
    own: u8,
    made: u16,
    send: u32,
    copy: u8,
    count: u8,
) -> Option<Found>
    requires own { own < CRAFTS }
    requires count { count ≤ CRAFTS }
    requires senders { AreOfTheirSenders journal.now.entries tables.now own count }
    ensures { MatchOption result (NotDueInAny tables.now own made send copy count) (IsDueInOne tables.now own made send copy count) }
{
    let Some(sender) = sender_at(journal, send) else {
        return None;
    };
    if sender >= count {
        return None;
    }
    match find_in(tables.queue(sender, own), made, send, copy) {
        Some(due) => Some(Found {
            sender,
            place: due.place,
            waiting: due.waiting,
        }),
        None => None,
    }
}
