// The takes that change the complement in force.
ghost use Rattle.std.specs.Prelude.{◌≡◌, ◌+◌, ◌∷◌, ◌<◌, ◌≤◌, IfSome, MatchOption, length, option_map};
ghost use Rattle.air_journal.specs.EntryRefs.{entry_of};
ghost use Rattle.air_rules.specs.Journal.{Begins, as_sent, commits, sent_at};
ghost use Rattle.journal_reader.specs.Reading.{read_of};
ghost use Rattle.picture.specs.Messages.{IsArrow, IsTaking, arrow_by, committed_by, is_same_complement, origin_of, taking_at, taking_of};

use acas_base::Vrc;
use air_journal::{AirState, EntryRef};
use journal_reader::Reader;

/// Who sent a message, and its number.
#[derive(Clone, Copy)]
pub(crate) struct Origin {
    pub sender: u8,
    pub number: u16,
}

/// What is known of a take of a message before it: the message, the positions of the send and of the take, how many
/// cycles the taker has committed, and the complement in force on it from the sender.
#[derive(Clone, Copy)]
pub(crate) struct Taking {
    pub sender: u8,
    pub receiver: u8,
    pub number: u16,
    pub send: u32,
    pub take: u32,
    pub taken_after: u16,
    pub before: Vrc,
}

/// A take that changes the complement in force: how many cycles the sender had committed at the send, and the
/// complement in force after the take.
#[derive(Clone, Copy)]
pub(crate) struct Arrow {
    pub taking: Taking,
    pub sent_after: u16,
    pub after: Vrc,
}

fn is_same_complement(one: Vrc, other: Vrc) -> bool
    ensures { result ≡ is_same_complement one other }
{
    match one {
        Vrc::Nil => matches!(other, Vrc::Nil),
        Vrc::NotBelow => matches!(other, Vrc::NotBelow),
        Vrc::NotAbove => matches!(other, Vrc::NotAbove),
    }
}

// ---- messages

// The message that an entry sends.
fn origin_in(entry: &EntryRef<'_>) -> Option<Origin>
    ensures { result ≡ option_map origin_of (as_sent (entry_of entry.now)) }
{
    match *entry {
        EntryRef::Send { own, number, .. } => Some(Origin {
            sender: own,
            number,
        }),
        EntryRef::Commit { .. } | EntryRef::Take { .. } => None,
    }
}

// The message that was sent at a position.
fn origin_at(state: &AirState, send: u32) -> Option<Origin>
    ensures value { result ≡ option_map origin_of (sent_at state.now.journal send) }
    ensures fits { IfSome result (λ origin. origin.sender < length state.now.encounter.crafts) }
{
    state.legal_law();
    match state.entry_ref(send) {
        Some(entry) => origin_in(&entry),
        None => None,
    }
}

// The cycle that an entry commits for an aircraft.
fn committed_by(own: u8, entry: &EntryRef<'_>) -> Option<u16>
    ensures { result ≡ committed_by own (entry_of entry.now) }
{
    match *entry {
        EntryRef::Commit {
            own: craft,
            cycle,
            ..
        } => { if craft == own { Some(cycle) } else { None } }
        EntryRef::Send { .. } | EntryRef::Take { .. } => None,
    }
}

// The cycle that the entry at a position commits for an aircraft.
fn committed_at(state: &AirState, own: u8, at: u32) -> Option<u16>
    ensures { MatchOption result (commits (read_of state.now.journal (at + 1)) own ≡ commits (read_of state.now.journal at) own) (λ cycle. commits (read_of state.now.journal (at + 1)) own ≡ cycle) }
{
    state.legal_law();
    match state.entry_ref(at) {
        Some(entry) => committed_by(own, &entry),
        None => None,
    }
}

/// How many cycles an aircraft had committed before a position: the cycle of its last commit before it. That is near,
/// since a message is sent before its sender commits again, and nobody is more than a cycle ahead of another one.
pub(crate) fn commits_before(state: &AirState, own: u8, position: u32) -> u16
    ensures value { result ≡ commits (read_of state.now.journal position) own }
    ensures most { result ≤ state.now.encounter.cycles }
{
    state.legal_law();
    for back in 0..position {
        if let Some(cycle) = committed_at(state, own, position - 1 - back) {
            return cycle;
        }
    }
    0
}

// ---- takes

// A take by an aircraft of a message that was sent at a position, where the reader stands before it.
fn taking_at(state: &AirState, reader: &Reader<'_>, own: u8, send: u32) -> Option<Taking>
    requires encounter { reader.now.encounter ≡ state.now.encounter }
    requires own { own < length state.now.encounter.crafts }
    ensures value { result ≡ taking_at state.now.encounter state.now.journal reader.now.read own send }
    ensures fits { IfSome result (λ taking. IsTaking state.now.encounter taking) }
{
    state.legal_law();
    reader.reading_law();
    match origin_at(state, send) {
        Some(origin) => Some(Taking {
            sender: origin.sender,
            receiver: own,
            number: origin.number,
            send,
            take: reader.position(),
            taken_after: reader.commits(own),
            before: reader.complement(own, origin.sender),
        }),
        None => None,
    }
}

/// The take that the entry is which comes next.
pub(crate) fn taking_of(
    state: &AirState,
    reader: &Reader<'_>,
    entry: &EntryRef<'_>,
) -> Option<Taking>
    requires encounter { reader.now.encounter ≡ state.now.encounter }
    requires next { Begins (entry_of entry.now ∷ reader.now.read) state.now.journal }
    ensures value { result ≡ taking_of state.now.encounter state.now.journal reader.now.read (entry_of entry.now) }
    ensures fits { IfSome result (λ taking. IsTaking state.now.encounter taking) }
{
    state.legal_law();
    match *entry {
        EntryRef::Take { own, send, .. } => taking_at(state, reader, own, send),
        EntryRef::Commit { .. } | EntryRef::Send { .. } => None,
    }
}

/// The arrow of a take after which this complement is in force; none where it was in force before.
pub(crate) fn arrow_by(state: &AirState, taking: Taking, after: Vrc) -> Option<Arrow>
    requires { IsTaking state.now.encounter taking }
    ensures value { result ≡ arrow_by state.now.journal taking after }
    ensures fits { IfSome result (λ arrow. IsArrow state.now.encounter arrow) }
{
    if is_same_complement(taking.before, after) {
        return None;
    }
    Some(Arrow {
        taking,
        sent_after: commits_before(state, taking.sender, taking.send),
        after,
    })
}
