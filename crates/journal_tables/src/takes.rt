// The takes of all copies.
ghost use Rattle.std.specs.Prelude.{◌≡◌, ◌∷◌, ◌<◌, ◌≤◌, [], IfOk, None, Some, length, option_map, replicate};
ghost use Rattle.acas_base.specs.declared.TheConstants.{CRAFTS};
ghost use Rattle.air_journal.specs.Airs.{air_of};
ghost use Rattle.air_journal.specs.EntryRefs.{entry_of};
ghost use Rattle.air_rules.specs.Journal.{Begins, Sent, as_sent, sent_at};
ghost use Rattle.journal_reader.specs.Reading.{next_entry};
ghost use Rattle.journal_tables.specs.Kept.{AreTakes, IsWith, copy_of, copy_taken, place_of, take_at};
ghost use Rattle.journal_tables.specs.Messages.{is_good, is_same_complement, take_by};

use acas_base::{CRAFTS, Vrc, pair_of};
use air_journal::{AirState, EntryRef};
use journal_reader::Reader;
use std::alloc::{AllocError, Global};

/// The sender and the receiver of messages.
#[derive(Clone, Copy)]
pub(crate) struct Way {
    pub sender: u8,
    pub receiver: u8,
}

/// A copy of a message.
#[derive(Clone, Copy)]
pub(crate) struct MessageCopy {
    pub way: Way,
    /// The number of the message among those of its sender to its receiver.
    pub number: u16,
    pub copy: u8,
}

/// The take of a copy.
#[derive(Clone, Copy)]
pub(crate) struct CopyTake {
    /// Its position in the journal.
    pub at: u32,
    /// The cycle of the receiver's last commit.
    pub cycle: u16,
    pub good: bool,
    /// The complement in force on the receiver from the sender isn't the same as before.
    pub changed: bool,
}

// The most messages of one aircraft to another one.
const NUMBERS: usize = 600;

/// The most copies that a message has.
pub(crate) const COPIES: usize = 3;

fn is_good(entry: &EntryRef<'_>) -> bool
    ensures { result ≡ is_good (entry_of entry.now) }
{
    match *entry {
        EntryRef::Take { good, .. } => good,
        EntryRef::Commit { .. } | EntryRef::Send { .. } => false,
    }
}

fn is_same_complement(one: Vrc, other: Vrc) -> bool
    ensures { result ≡ is_same_complement one other }
{
    match one {
        Vrc::Nil => matches!(other, Vrc::Nil),
        Vrc::NotBelow => matches!(other, Vrc::NotBelow),
        Vrc::NotAbove => matches!(other, Vrc::NotAbove),
    }
}

// A copy of the message that an entry sends.
fn copy_in(entry: &EntryRef<'_>, copy: u8) -> Option<MessageCopy>
    ensures { result ≡ option_map (λ (sent : Sent). copy_of sent copy) (as_sent (entry_of entry.now)) }
{
    match *entry {
        EntryRef::Send {
            own,
            target,
            number,
            ..
        } => Some(MessageCopy {
            way: Way {
                sender: own,
                receiver: target,
            },
            number,
            copy,
        }),
        EntryRef::Commit { .. } | EntryRef::Take { .. } => None,
    }
}

// A copy of the message that was sent at a position.
fn copy_at(state: &AirState, send: u32, copy: u8) -> Option<MessageCopy>
    ensures { result ≡ option_map (λ (sent : Sent). copy_of sent copy) (sent_at state.now.journal send) }
{
    match state.entry_ref(send) {
        Some(entry) => copy_in(&entry, copy),
        None => None,
    }
}

// The copy that an entry takes.
fn copy_taken(state: &AirState, entry: &EntryRef<'_>) -> Option<MessageCopy>
    ensures { result ≡ copy_taken (sent_at state.now.journal) (entry_of entry.now) }
{
    match *entry {
        EntryRef::Take { send, copy, .. } => copy_at(state, send, copy),
        EntryRef::Commit { .. } | EntryRef::Send { .. } => None,
    }
}

// Where the take of a copy is kept.
fn place_of(copy: MessageCopy) -> usize
    requires { 1 ≤ copy.number }
    ensures { result ≡ place_of copy }
{
    let message = pair_of(copy.way.sender, copy.way.receiver) * NUMBERS
        + usize::from(copy.number - 1);
    message * COPIES + usize::from(copy.copy)
}

/// The take that is kept of a copy.
pub(crate) fn take_at(takes: &[Option<CopyTake>], copy: MessageCopy) -> Option<CopyTake>
    requires { 1 ≤ copy.number }
    ensures { result ≡ take_at takes.now (place_of copy) }
{
    match takes.get(place_of(copy)) {
        Some(take) => *take,
        None => None,
    }
}

// Keeps the take of a copy, where there was none.
fn keep(takes: &mut Vec<Option<CopyTake>>, copy: MessageCopy, take: CopyTake)
    requires number { 1 ≤ copy.number }
    requires within { place_of copy < length takes.old.items }
    ensures { IsWith takes.old.items takes.new.items (place_of copy) take }
{
    let place = place_of(copy);
    if takes[place].is_none() {
        takes[place] = Some(take);
    }
}

// Reads the entry that comes next, and gives what it says where it takes a copy of a message that goes this way.
fn read_take(reader: &mut Reader<'_>, entry: &EntryRef<'_>, way: Way) -> CopyTake
    requires next { next_entry reader.old ≡ Some (entry_of entry.now) }
    requires sender { way.sender < CRAFTS }
    requires receiver { way.receiver < CRAFTS }
    ensures take { result ≡ take_by (air_of reader.old.encounter) reader.old.read (entry_of entry.now) way.sender way.receiver }
    ensures encounter { reader.new.encounter ≡ reader.old.encounter }
    ensures journal { reader.new.journal ≡ reader.old.journal }
    ensures read { reader.new.read ≡ entry_of entry.now ∷ reader.old.read }
{
    let at = reader.position();
    let cycle = reader.commits(way.receiver);
    let before = reader.complement(way.receiver, way.sender);
    reader.next();
    let after = reader.complement(way.receiver, way.sender);
    CopyTake {
        at,
        cycle,
        good: is_good(entry),
        changed: !is_same_complement(before, after),
    }
}

// Reads the entry that comes next, and keeps the take that it may be.
fn keep_next(
    state: &AirState,
    reader: &mut Reader<'_>,
    entry: &EntryRef<'_>,
    takes: &mut Vec<Option<CopyTake>>,
)
    requires encounter { reader.old.encounter ≡ state.now.encounter }
    requires next { next_entry reader.old ≡ Some (entry_of entry.now) }
    requires begins { Begins (entry_of entry.now ∷ reader.old.read) state.now.journal }
    requires takes { AreTakes state.now reader.old.read takes.old.items }
    ensures encounter { reader.new.encounter ≡ reader.old.encounter }
    ensures journal { reader.new.journal ≡ reader.old.journal }
    ensures read { reader.new.read ≡ entry_of entry.now ∷ reader.old.read }
    ensures takes { AreTakes state.now (entry_of entry.now ∷ reader.old.read) takes.new.items }
{
    state.legal_law();
    let Some(copy) = copy_taken(state, entry) else {
        reader.next();
        return;
    };
    let take = read_take(reader, entry, copy.way);
    keep(takes, copy, take);
}

fn keep_all(state: &AirState, takes: &mut Vec<Option<CopyTake>>)
    requires { AreTakes state.now [] takes.old.items }
    ensures { AreTakes state.now state.now.journal takes.new.items }
{
    let mut reader = Reader::new(state);
    while let Some(entry) = reader.peek() {
        keep_next(state, &mut reader, &entry, takes);
    }
}

fn no_takes(alloc: Global, count: usize) -> Result<Vec<Option<CopyTake>>, AllocError>
    ensures { IfOk result (λ takes. takes.items ≡ replicate count None) }
{
    let mut takes = Vec::with_capacity(alloc, count)?;
    for _place in 0..count {
        takes.push(None)?;
    }
    Ok(takes)
}

/// The takes of all copies. It reads the journal once, and takes memory by the number of aircraft.
pub(crate) fn takes_of(alloc: Global, state: &AirState) -> Result<Vec<Option<CopyTake>>, AllocError>
    ensures { IfOk result (λ takes. AreTakes state.now state.now.journal takes.items) }
{
    state.legal_law();
    let senders = state.enc().crafts().len();
    let mut takes = no_takes(alloc, senders * (CRAFTS * NUMBERS * COPIES))?;
    keep_all(state, &mut takes);
    Ok(takes)
}
