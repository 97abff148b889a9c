// The fates of most messages.
ghost use Rattle.std.specs.Prelude.{◌≡◌, ◌<◌, length, IfOk, IfSome, IsTrue};
ghost use Rattle.acas_base.specs.Fates.{copies_of, fate_of};
ghost use Rattle.acas_base.specs.declared.TheConstants.{CRAFTS};
ghost use Rattle.air_journal.specs.Usual.{AreUnnamed, AreUsual, IsUnnamed};

use crate::crafts::is_ra;
use acas_base::{CRAFTS, Encounter, Fate, PAIRS, pair_of};
use std::alloc::{AllocError, Global};
use std::marker::Model;

/// The fate that all messages of an ordered pair have, for each pair that sends messages and of which the encounter
/// names no single message; so a send needn't search the encounter's lists.
#[derive(Drop)]
pub(crate) struct UsualFates {
    fates: Vec<Option<Fate>>,
    // Where the first record of each pair stands: that of a later message mostly stands as many places on.
    firsts: [usize; PAIRS],
}

impl Model for UsualFates {
    ghost use Rattle.std.specs.Prelude.{List, Option};
    ghost use Rattle.acas_base.specs.declared.link.Fate.{Fate};

    ghost Value = { List (Option Fate) };

    ghost view = { λ u. u.fates.items };
}

// What becomes of a message that no record names, where the pair sends messages.
fn unnamed(encounter: &Encounter, sender: u8, receiver: u8) -> Option<Fate>
    ensures { IsUnnamed encounter.now 0 sender receiver result }
{
    if is_ra(encounter, sender) && is_ra(encounter, receiver) {
        Some(encounter.fate(sender, receiver, 0))
    } else {
        None
    }
}

// That of each pair.
fn all_unnamed(alloc: Global, encounter: &Encounter) -> Result<Vec<Option<Fate>>, AllocError>
    ensures { IfOk result (λ fates. AreUnnamed encounter.now 0 fates.items) }
{
    let mut fates = Vec::with_capacity(alloc, PAIRS)?;
    for pair in 0..PAIRS {
        fates.push(unnamed(encounter, (pair / CRAFTS) as u8, (pair % CRAFTS) as u8))?;
    }
    Ok(fates)
}

// Leaves out the pairs of the records, and notes where the first record of each stands.
fn leave_named(fates: &mut Vec<Option<Fate>>, firsts: &mut [usize; PAIRS], encounter: &Encounter)
    requires { AreUnnamed encounter.now 0 fates.old.items }
    ensures { AreUnnamed encounter.now (length encounter.now.fates) fates.new.items }
{
    let records = encounter.fates();
    for at in 0..records.len() {
        let named = records[at];
        let pair = pair_of(named.sender, named.receiver);
        if fates[pair].is_some() {
            firsts[pair] = at;
        }
        fates[pair] = None;
    }
}

// Whether a record is of this message.
fn is_of(fate: &Fate, sender: u8, receiver: u8, number: u16) -> bool
    ensures { IsTrue result → (fate.now.sender ≡ sender) × (fate.now.receiver ≡ receiver) × (fate.now.number ≡ number) }
{
    fate.sender == sender && fate.receiver == receiver && fate.number == number
}

// What becomes of a message, where the record at a place tells.
fn fate_at(encounter: &Encounter, at: usize, sender: u8, receiver: u8, number: u16) -> Option<Fate>
    ensures { IfSome result (λ fate. fate ≡ fate_of encounter.now sender receiver number) }
{
    let Some(fate) = encounter.fates().get(at) else {
        return None;
    };
    if is_of(fate, sender, receiver, number) {
        Some(*fate)
    } else {
        None
    }
}

impl UsualFates {
    /// Those of an encounter.
    pub(crate) fn new(alloc: Global, encounter: &Encounter) -> Result<Self, AllocError>
        ensures { IfOk result (AreUsual encounter.now) }
    {
        let mut fates = all_unnamed(alloc, encounter)?;
        let mut firsts = [0; PAIRS];
        leave_named(&mut fates, &mut firsts, encounter);
        Ok(UsualFates { fates, firsts })
    }

    /// What becomes of a message of the encounter.
    pub(crate) fn fate(&self, encounter: &Encounter, sender: u8, receiver: u8, number: u16) -> Fate
        requires sender { sender < CRAFTS }
        requires receiver { receiver < CRAFTS }
        requires usual { AreUsual encounter.now self.now }
        ensures { copies_of result ≡ copies_of (fate_of encounter.now sender receiver number) }
    {
        let pair = pair_of(sender, receiver);
        if let Some(fate) = self.fates[pair] {
            return fate;
        }
        let at = self.firsts[pair]
            .saturating_add(usize::from(number))
            .saturating_sub(1);
        match fate_at(encounter, at, sender, receiver, number) {
            Some(fate) => fate,
            None => encounter.fate(sender, receiver, number),
        }
    }
}
