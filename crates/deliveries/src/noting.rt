// The takes of all messages, and how many were sent, noted in one pass over a journal.
ghost use Rattle.std.specs.Prelude.{◌≡◌, ◌+◌, ◌*◌, ◌<◌, ◌≤◌, ℕ, IfOk, Some, length, replicate, reverse, slice_get, slice_index_or, slice_set};
ghost use Rattle.acas_base.specs.declared.TheConstants.{CRAFTS};
ghost use Rattle.air_journal.specs.EntryRefs.{entry_of};
ghost use Rattle.air_journal.specs.Ranges.{IsEntry};
ghost use Rattle.air_rules.specs.Journal.{as_sent, sent_at};
ghost use Rattle.deliveries.specs.Noted.{AreNotes, IsSlotFound, copies_for, message_slot, no_copies, no_takes, with_take};

use crate::rows::NUMBERS;
use crate::takes::{Copies, Takes};
use acas_base::{CRAFTS, Encounter, PAIRS, pair_of};
use air_journal::{AirState, EntryRef};
use std::alloc::{AllocError, Global};

/// What is noted of a journal: the copies and the takes of each message that the aircraft can send, and how many
/// messages were sent, by pair.
#[derive(Drop)]
pub(crate) struct Notes {
    pub copies: Vec<Copies>,
    pub takes: Vec<Takes>,
    pub sent: [u16; PAIRS],
}

// The place of a message.
fn message_slot(sender: u8, receiver: u8, number: u16) -> usize
    ensures { result ≡ message_slot sender receiver number }
{
    pair_of(sender, receiver) * NUMBERS + usize::from(number.saturating_sub(1))
}

// The place of the message that an entry sends.
fn slot_of(entry: &EntryRef<'_>) -> Option<usize>
    ensures { (count : ℕ) → IsEntry count (entry_of entry.now) → IsSlotFound count (as_sent (entry_of entry.now)) result }
{
    match *entry {
        EntryRef::Send {
            own,
            target,
            number,
            ..
        } => Some(message_slot(own, target, number)),
        EntryRef::Commit { .. } | EntryRef::Take { .. } => None,
    }
}

// The place of the message that was sent at a position.
fn slot_at(state: &AirState, send: u32) -> Option<usize>
    ensures { IsSlotFound (length state.now.encounter.crafts) (sent_at state.now.journal send) result }
{
    state.legal_law();
    match state.entry_ref(send) {
        Some(entry) => slot_of(&entry),
        None => None,
    }
}

fn note_send(sent: &mut [u16; PAIRS], sender: u8, receiver: u8, number: u16)
    requires sender { sender < CRAFTS }
    requires receiver { receiver < CRAFTS }
    ensures { sent.new ≡ slice_set sent.old (sender * CRAFTS + receiver) number }
{
    sent[pair_of(sender, receiver)] = number;
}

fn note_copies(
    encounter: &Encounter,
    copies: &mut Vec<Copies>,
    sender: u8,
    receiver: u8,
    number: u16,
)
    requires { message_slot sender receiver number < length copies.old.items }
    ensures { copies.new.items ≡ slice_set copies.old.items (message_slot sender receiver number) (copies_for encounter.now sender receiver number) }
{
    copies[message_slot(sender, receiver, number)] = Copies::planned(
        encounter, sender, receiver, number,
    );
}

fn note_take(takes: &mut Vec<Takes>, slot: usize, copy: u8, good: bool)
    requires { slot < length takes.old.items }
    ensures { takes.new.items ≡ slice_set takes.old.items slot (with_take (slice_index_or takes.old.items slot no_takes) copy good) }
{
    takes[slot] = takes[slot].with(copy, good);
}

// Notes what the entry at a position says.
fn note(state: &AirState, at: u32, entry: &EntryRef<'_>, notes: &mut Notes)
    requires entry { slice_get (reverse state.now.journal) at ≡ Some (entry_of entry.now) }
    requires noted { AreNotes state.now.encounter state.now.journal at notes.old.copies.items notes.old.takes.items notes.old.sent }
    ensures { AreNotes state.now.encounter state.now.journal (at + 1) notes.new.copies.items notes.new.takes.items notes.new.sent }
{
    state.legal_law();
    match *entry {
        EntryRef::Commit { .. } => {}
        EntryRef::Send {
            own,
            target,
            number,
            ..
        } => {
            note_send(&mut notes.sent, own, target, number);
            note_copies(state.enc(), &mut notes.copies, own, target, number);
        }
        EntryRef::Take {
            send,
            copy,
            good,
            ..
        } => {
            if let Some(slot) = slot_at(state, send) {
                note_take(&mut notes.takes, slot, copy, good);
            }
        }
    }
}

// Notes what the entry at a position says, where there is one.
fn note_at(state: &AirState, at: u32, notes: &mut Notes)
    requires { AreNotes state.now.encounter state.now.journal at notes.old.copies.items notes.old.takes.items notes.old.sent }
    ensures { AreNotes state.now.encounter state.now.journal (at + 1) notes.new.copies.items notes.new.takes.items notes.new.sent }
{
    if let Some(entry) = state.entry_ref(at) {
        note(state, at, &entry, notes);
    }
}

// No copies yet, of the messages of so many aircraft.
fn no_copies(alloc: Global, crafts: usize) -> Result<Vec<Copies>, AllocError>
    requires { crafts ≤ CRAFTS }
    ensures { IfOk result (λ copies. copies.items ≡ replicate (crafts * 9600) no_copies) }
{
    let mut copies = Vec::with_capacity(alloc, crafts * CRAFTS * NUMBERS)?;
    for _slot in 0..crafts * CRAFTS * NUMBERS {
        copies.push(Copies::none())?;
    }
    Ok(copies)
}

// No takes yet, of the messages of so many aircraft.
fn no_takes(alloc: Global, crafts: usize) -> Result<Vec<Takes>, AllocError>
    requires { crafts ≤ CRAFTS }
    ensures { IfOk result (λ takes. takes.items ≡ replicate (crafts * 9600) no_takes) }
{
    let mut takes = Vec::with_capacity(alloc, crafts * CRAFTS * NUMBERS)?;
    for _slot in 0..crafts * CRAFTS * NUMBERS {
        takes.push(Takes::none())?;
    }
    Ok(takes)
}

impl Notes {
    /// Those of the journal of a state. They take memory by the number of its aircraft, and none by that of entries.
    pub fn new(alloc: Global, state: &AirState) -> Result<Notes, AllocError>
        ensures { IfOk result (λ notes. AreNotes state.now.encounter state.now.journal (length state.now.journal) notes.copies.items notes.takes.items notes.sent) }
    {
        state.legal_law();
        let count = state.enc().crafts().len();
        let copies = no_copies(alloc, count)?;
        let takes = no_takes(alloc, count)?;
        let mut notes = Notes {
            copies,
            takes,
            sent: [0; PAIRS],
        };
        for at in 0..state.count() {
            note_at(state, at, &mut notes);
        }
        Ok(notes)
    }
    /// The copies of a message that was sent.
    pub fn copies(&self, sender: u8, receiver: u8, number: u16) -> Copies
        requires { message_slot sender receiver number < length self.now.copies.items }
        ensures { result ≡ slice_index_or self.now.copies.items (message_slot sender receiver number) no_copies }
    {
        self.copies[message_slot(sender, receiver, number)]
    }

    /// The takes of a message.
    pub fn takes(&self, sender: u8, receiver: u8, number: u16) -> Takes
        requires { message_slot sender receiver number < length self.now.takes.items }
        ensures { result ≡ slice_index_or self.now.takes.items (message_slot sender receiver number) no_takes }
    {
        self.takes[message_slot(sender, receiver, number)]
    }
}
