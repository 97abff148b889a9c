// Why a take isn't allowed.
ghost use Rattle.std.specs.Prelude.{◌≡◌, MatchOption, false};
ghost use Rattle.air_journal.specs.Airs.{air_of};
ghost use Rattle.air_journal.specs.EntryRefs.{entry_of};
ghost use Rattle.air_rules.specs.Journal.{is_take_of, was_taken};
ghost use Rattle.verdict_text.specs.Causes.{BarsTake, MayTakeNow};
ghost use Rattle.verdict_text.specs.Searches.{IsTakeAt, NoneWaits, Receives, ReceivesNone, WaitsUntil};

use crate::causes::TakeCause;
use air_journal::{AirState, EntryRef, Waiting};
use craft_view::is_active;

// A message: its sender, and its number to its receiver.
#[derive(Clone, Copy)]
struct Message {
    sender: u8,
    number: u16,
}

// The message that was sent to an aircraft at a position.
fn message_to(state: &AirState, own: u8, send: u32) -> Option<Message>
    ensures { MatchOption result
        (ReceivesNone state.now.journal own send)
        (λ message. Receives state.now.journal own send message.sender message.number) }
{
    match state.entry_ref(send) {
        Some(
            EntryRef::Send {
                own: sender,
                target,
                number,
                ..
            },
        ) => if target == own {
            Some(Message { sender, number })
        } else {
            None
        },
        Some(EntryRef::Commit { .. }) => None,
        Some(EntryRef::Take { .. }) => None,
        None => None,
    }
}

// Where an aircraft took a copy.
fn taken_at(state: &AirState, own: u8, send: u32, copy: u8) -> Option<u32>
    ensures { MatchOption result
        (was_taken state.now.journal own send copy ≡ false)
        (IsTakeAt state.now.journal own send copy) }
{
    for at in 0..state.count() {
        if let Some(entry) = state.entry_ref(at) {
            if is_take_of(&entry, own, send, copy) {
                return Some(at);
            }
        }
    }
    None
}

// Whether an entry is the take of a copy by an aircraft.
fn is_take_of(entry: &EntryRef<'_>, by: u8, of_send: u32, of_copy: u8) -> bool
    ensures { result ≡ is_take_of by of_send of_copy (entry_of entry.now) }
{
    match *entry {
        EntryRef::Take {
            own,
            send,
            copy,
            ..
        } => own == by && send == of_send && copy == of_copy,
        EntryRef::Commit { .. } => false,
        EntryRef::Send { .. } => false,
    }
}

// After how many commits of its receiver a copy that waits is due.
fn due_of(queue: &[Waiting], send: u32, copy: u8) -> Option<u16>
    ensures { MatchOption result (NoneWaits queue.now send copy) (WaitsUntil queue.now send copy) }
{
    for waiting in queue {
        if waiting.send == send && waiting.copy == copy {
            return Some(waiting.due);
        }
    }
    None
}

/// Why an aircraft may not take a copy of the message sent at a position, after a journal. None where it may.
pub fn take_cause(state: &AirState, own: u8, send: u32, copy: u8) -> Option<TakeCause>
    ensures { MatchOption result
        (MayTakeNow (air_of state.now.encounter) state.now.journal own send copy)
        (BarsTake (air_of state.now.encounter) state.now.journal own send copy) }
{
    state.legal_law();
    if !is_active(state.enc(), own) {
        return Some(TakeCause::Inactive);
    }
    let Some(message) = message_to(state, own, send) else {
        return Some(TakeCause::NoMessage);
    };
    let copies = state.enc().fate(message.sender, own, message.number).copies;
    if copies <= copy {
        return Some(TakeCause::NoCopy { copies });
    }
    if let Some(position) = taken_at(state, own, send, copy) {
        return Some(TakeCause::Taken { position });
    }
    let made = state.commits(own);
    match due_of(state.waiting(message.sender, own), send, copy) {
        Some(due) => if due <= made {
            None
        } else {
            Some(TakeCause::Held {
                commits: due - made,
            })
        },
        None => unreachable!(),
    }
}
