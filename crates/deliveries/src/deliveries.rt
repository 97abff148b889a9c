// What became of the messages of a journal.
ghost use Rattle.std.specs.Prelude.{◌≡◌, ◌≤◌, ◌<◌, IfOk, IfSome, is_some, length};
ghost use Rattle.acas_base.specs.Encounter.{IsEncounter};
ghost use Rattle.acas_base.specs.Ranges.{IsCycle};
ghost use Rattle.air_journal.specs.Airs.{air_of};
ghost use Rattle.air_journal.specs.EntryRefs.{entry_of};
ghost use Rattle.air_rules.specs.Journal.{as_sent, sends, sent_at};
ghost use Rattle.air_rules.specs.Rules.{IsLegal};
ghost use Rattle.deliveries.specs.Counts.{AreCounts};
ghost use Rattle.deliveries.specs.Mishaps.{befallen_of, befalls};
ghost use Rattle.deliveries.specs.Noted.{IsEntryOf, copies_for, takes_by};
ghost use Rattle.deliveries.specs.Rows.{begins_row, is_marked, row_at, row_end};

use crate::counts::{Counts, counts_of};
use crate::mishap::Mishap;
use crate::noting::Notes;
use crate::rows::{Numbers, Row};
use crate::takes::{Copies, Takes};
use acas_base::pair_of;
use air_journal::{AirState, EntryRef};
use std::alloc::{AllocError, Global};
use std::marker::Model;

/// What became of the messages of a journal. Aircraft are named by their indices, and an aircraft numbers its messages
/// to another one from 1 on.
#[derive(Drop)]
pub struct Deliveries {
    state: AirState,
    notes: Notes,
}

impl Model for Deliveries {
    ghost use Rattle.std.specs.Prelude.{length};
    ghost use Rattle.air_journal.specs.States.{State};
    ghost use Rattle.deliveries.specs.Noted.{AreNotes};

    ghost Value = { State };

    ghost view = { λ d. d.state };

    ghost invariant = { λ d. AreNotes d.state.encounter d.state.journal (length d.state.journal) d.notes.copies.items d.notes.takes.items d.notes.sent };
}

impl Deliveries {
    /// Those of a state. They take memory by the number of its aircraft: 57,600 bytes for each one. Want of memory is
    /// the only error.
    pub fn new(alloc: Global, state: AirState) -> Result<Deliveries, AllocError>
        ensures { IfOk result (λ deliveries. deliveries ≡ state) }
    {
        let notes = Notes::new(alloc, &state)?;
        Ok(Deliveries { state, notes })
    }

    /// The state.
    pub fn state(&self) -> &AirState
        ensures { result.now ≡ self.now }
    {
        &self.state
    }

    // The state's encounter is one, and its journal is legal.
    fn legal_law(&self)
        ensures valid { IsEncounter self.now.encounter }
        ensures legal { IsLegal (air_of self.now.encounter) self.now.journal }
    {
        self.state.legal_law();
    }

    /// How many messages one aircraft sent to another one, at most 600.
    pub fn sent(&self, sender: u8, receiver: u8) -> u16
        requires sender { sender < length self.now.encounter.crafts }
        requires receiver { receiver < length self.now.encounter.crafts }
        ensures value { result ≡ sends self.now.journal sender receiver }
        ensures few { result ≤ 600 }
    {
        self.state.legal_law();
        self.notes.sent[pair_of(sender, receiver)]
    }

    // The copies of a message that was sent.
    fn copies(&self, sender: u8, receiver: u8, number: u16) -> Copies
        requires sender { sender < length self.now.encounter.crafts }
        requires receiver { receiver < length self.now.encounter.crafts }
        requires first { 1 ≤ number }
        requires last { number ≤ sends self.now.journal sender receiver }
        ensures { result ≡ copies_for self.now.encounter sender receiver number }
    {
        self.state.legal_law();
        self.notes.copies(sender, receiver, number)
    }

    // The takes of a message.
    fn takes(&self, sender: u8, receiver: u8, number: u16) -> Takes
        requires sender { sender < length self.now.encounter.crafts }
        requires receiver { receiver < length self.now.encounter.crafts }
        requires number { IsCycle number }
        ensures { result ≡ takes_by (sent_at self.now.journal) self.now.journal sender receiver number }
    {
        self.state.legal_law();
        self.notes.takes(sender, receiver, number)
    }

    /// Whether this befalls the message of a number, from 1 to how many were sent.
    pub fn befalls(&self, mishap: Mishap, sender: u8, receiver: u8, number: u16) -> bool
        requires sender { sender < length self.now.encounter.crafts }
        requires receiver { receiver < length self.now.encounter.crafts }
        requires first { 1 ≤ number }
        requires last { number ≤ sends self.now.journal sender receiver }
        ensures { result ≡ befalls self.now.encounter self.now.journal mishap sender receiver number }
    {
        self.legal_law();
        let copies = self.copies(sender, receiver, number);
        let takes = self.takes(sender, receiver, number);
        match mishap {
            Mishap::Lost => copies.count == 0,
            Mishap::Spoilt => takes.is_spoilt(),
            Mishap::HeldBack => copies.held,
            Mishap::Repeated => copies.count > 1,
            Mishap::Untaken => takes.some_left(copies.count),
        }
    }

    // Whether this befalls the message of a number. It befalls none that wasn't sent.
    fn is_marked(&self, mishap: Mishap, sender: u8, receiver: u8, number: u16) -> bool
        requires sender { sender < length self.now.encounter.crafts }
        requires receiver { receiver < length self.now.encounter.crafts }
        requires first { 1 ≤ number }
        ensures { result ≡ is_marked (befallen_of self.now.encounter self.now.journal mishap sender receiver) number }
    {
        if number > self.sent(sender, receiver) {
            return false;
        }
        self.befalls(mishap, sender, receiver, number)
    }

    // Whether a maximal row begins at a number.
    fn begins_row(&self, mishap: Mishap, sender: u8, receiver: u8, number: u16) -> bool
        requires sender { sender < length self.now.encounter.crafts }
        requires receiver { receiver < length self.now.encounter.crafts }
        requires first { 1 ≤ number }
        ensures { result ≡ begins_row (befallen_of self.now.encounter self.now.journal mishap sender receiver) number }
    {
        if !self.is_marked(mishap, sender, receiver, number) {
            return false;
        }
        if number == 1 {
            return true;
        }
        !self.is_marked(mishap, sender, receiver, number - 1)
    }

    // The last number of the row to which a message belongs that this befalls.
    fn row_end(&self, mishap: Mishap, sender: u8, receiver: u8, number: u16) -> u16
        requires sender { sender < length self.now.encounter.crafts }
        requires receiver { receiver < length self.now.encounter.crafts }
        requires first { 1 ≤ number }
        requires last { number ≤ sends self.now.journal sender receiver }
        ensures value { result ≡ row_end (befallen_of self.now.encounter self.now.journal mishap sender receiver) (length (befallen_of self.now.encounter self.now.journal mishap sender receiver)) number }
        ensures order { number ≤ result }
        ensures few { result ≤ 600 }
    {
        let sent = self.sent(sender, receiver);
        for after in number..sent {
            if !self.is_marked(mishap, sender, receiver, after + 1) {
                return after;
            }
        }
        sent
    }

    /// The maximal row of messages that this befalls which begins at a number from 1 on; none where none does. All rows
    /// of two aircraft are found when each number is asked, in as many steps as there are messages.
    pub fn row_at(&self, mishap: Mishap, sender: u8, receiver: u8, number: u16) -> Option<Row>
        requires sender { sender < length self.now.encounter.crafts }
        requires receiver { receiver < length self.now.encounter.crafts }
        requires first { 1 ≤ number }
        ensures value { result ≡ row_at (befallen_of self.now.encounter self.now.journal mishap sender receiver) number }
        ensures order { IfSome result (λ row. row.first ≤ row.last) }
        ensures few { IfSome result (λ row. row.last ≤ 600) }
    {
        if number > self.sent(sender, receiver) {
            return None;
        }
        if !self.begins_row(mishap, sender, receiver, number) {
            return None;
        }
        Some(Row {
            first: number,
            last: self.row_end(mishap, sender, receiver, number),
        })
    }

    /// How many messages were sent, and how many of these each mishap befell.
    pub fn counts(&self) -> Counts
        ensures { AreCounts self.now.encounter self.now.journal self.now.journal result }
    {
        counts_of(self, &self.state)
    }

    /// Which of the messages that one aircraft sent to another one this befalls, by their numbers.
    pub fn numbers(&self, mishap: Mishap, sender: u8, receiver: u8) -> Numbers
        requires sender { sender < length self.now.encounter.crafts }
        requires receiver { receiver < length self.now.encounter.crafts }
        ensures { result ≡ befallen_of self.now.encounter self.now.journal mishap sender receiver }
    {
        let mut numbers = Numbers::new();
        for before in 0..self.sent(sender, receiver) {
            numbers.push(self.befalls(mishap, sender, receiver, before + 1));
        }
        numbers
    }
}
