// The losses of all links of a run.
ghost use Rattle.std.specs.Prelude.{◌≡◌, ◌++◌, ◌<◌, ◌≤◌, All, IfOk, OnOk, length};
ghost use Rattle.run_losses.specs.Counted.{AreSent};
ghost use Rattle.run_losses.specs.Laws.{IsOfRun};
ghost use Rattle.run_losses.specs.Losses.{losses_of};
ghost use Rattle.run_losses.specs.Parts.{losses_from, losses_in};
ghost use Rattle.variants.specs.Variants.{IsSmall};

use crate::links::{Part, add_link};
use crate::sent::sent_by_pair;
use acas_base::{PAIRS, pair_of};
use air_journal::AirState;
use std::alloc::{AllocError, Global};
use variants::Change;

// How many aircraft there are.
fn crafts_of(state: &AirState) -> u8
    ensures value { result ≡ length state.now.encounter.crafts }
    ensures few { result ≤ 16 }
{
    state.legal_law();
    state.enc().crafts().len() as u8
}

// Adds the losses of one kind of the links from a sender.
fn add_sender(
    changes: &mut Vec<Change>,
    state: &AirState,
    sent: &[u16; PAIRS],
    part: Part,
    sender: u8,
) -> Result<(), AllocError>
    requires sent { AreSent state.now.journal sent.now }
    requires sender { sender < length state.now.encounter.crafts }
    ensures { OnOk result (changes.new.items ≡ changes.old.items ++ losses_from state.now.encounter state.now.journal part sender) }
{
    for receiver in 0..crafts_of(state) {
        let messages = sent[pair_of(sender, receiver)];
        add_link(changes, state.enc(), part, sender, receiver, messages)?;
    }
    Ok(())
}

// Adds the losses of one kind of all links.
fn add_part(
    changes: &mut Vec<Change>,
    state: &AirState,
    sent: &[u16; PAIRS],
    part: Part,
) -> Result<(), AllocError>
    requires { AreSent state.now.journal sent.now }
    ensures { OnOk result (changes.new.items ≡ changes.old.items ++ losses_in state.now.encounter state.now.journal part) }
{
    for sender in 0..crafts_of(state) {
        add_sender(changes, state, sent, part, sender)?;
    }
    Ok(())
}

/// The losses of messages of the run that a state holds: each message that has a copy, by sender, receiver and number,
/// and then for each link the first messages, for each number of them from 2 to all. The error says that memory was
/// wanting.
pub fn losses(alloc: Global, state: &AirState) -> Result<Vec<Change>, AllocError>
    ensures row { IfOk result (λ changes. changes.items ≡ losses_of state.now.encounter state.now.journal) }
    ensures small { IfOk result (λ changes. All IsSmall changes.items) }
    ensures few { IfOk result (λ changes. length changes.items ≤ 307200) }
    ensures sent { IfOk result (λ changes. All (IsOfRun state.now.encounter state.now.journal) changes.items) }
{
    state.legal_law();
    let sent = sent_by_pair(state);
    let mut changes = Vec::new(alloc);
    add_part(&mut changes, state, &sent, Part::Singles)?;
    add_part(&mut changes, state, &sent, Part::Fronts)?;
    Ok(changes)
}
