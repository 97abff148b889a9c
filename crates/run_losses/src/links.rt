// The losses of one link: the messages from one aircraft to another one.
ghost use Rattle.std.specs.Prelude.{◌≡◌, ◌-◌, ◌++◌, ◌∷◌, [], OnOk, map};
ghost use Rattle.std.specs.List.{range_with_len};
ghost use Rattle.run_losses.specs.Losses.{front_loss, has_copy, one_loss, singles_among};
ghost use Rattle.run_losses.specs.Parts.{losses_by};

use acas_base::Encounter;
use std::alloc::AllocError;
use variants::{Change, Loss};

/// Two kinds of losses of a link: one message that has a copy, and the first messages up to a number.
#[derive(Clone, Copy)]
pub(crate) enum Part {
    Singles,
    Fronts,
}

// The loss of one message.
fn one_loss(sender: u8, receiver: u8, number: u16) -> Change
    ensures { result ≡ one_loss sender receiver number }
{
    Change::Lost(Loss {
        sender,
        receiver,
        first: number,
        last: number,
    })
}

// The loss of the messages from the first one to this number.
fn front_loss(sender: u8, receiver: u8, last: u16) -> Change
    ensures { result ≡ front_loss sender receiver last }
{
    Change::Lost(Loss {
        sender,
        receiver,
        first: 1,
        last,
    })
}

// Whether a message has a copy.
fn has_copy(encounter: &Encounter, sender: u8, receiver: u8, number: u16) -> bool
    ensures { result ≡ has_copy encounter.now sender receiver number }
{
    encounter.fate(sender, receiver, number).copies > 0
}

// Adds the loss of a message, where it has a copy.
fn add_single(
    changes: &mut Vec<Change>,
    encounter: &Encounter,
    sender: u8,
    receiver: u8,
    number: u16,
) -> Result<(), AllocError>
    ensures { OnOk result (changes.new.items ≡ changes.old.items ++ singles_among encounter.now sender receiver (number ∷ [])) }
{
    if has_copy(encounter, sender, receiver, number) {
        changes.push(one_loss(sender, receiver, number))?;
    }
    Ok(())
}

// Adds the loss of each message that has a copy.
fn add_singles(
    changes: &mut Vec<Change>,
    encounter: &Encounter,
    sender: u8,
    receiver: u8,
    sent: u16,
) -> Result<(), AllocError>
    ensures { OnOk result (changes.new.items ≡ changes.old.items ++ singles_among encounter.now sender receiver (range_with_len 1 sent)) }
{
    for before in 0..sent {
        add_single(changes, encounter, sender, receiver, before + 1)?;
    }
    Ok(())
}

// Adds the loss of the first messages, for each number of them from 2 on.
fn add_fronts(
    changes: &mut Vec<Change>,
    sender: u8,
    receiver: u8,
    sent: u16,
) -> Result<(), AllocError>
    ensures { OnOk result (changes.new.items ≡ changes.old.items ++ map (front_loss sender receiver) (range_with_len 2 (sent - 1))) }
{
    for place in 0..sent.saturating_sub(1) {
        changes.push(front_loss(sender, receiver, place + 2))?;
    }
    Ok(())
}

/// Adds the losses of one kind of a link with so many messages. The error says that memory was wanting.
pub(crate) fn add_link(
    changes: &mut Vec<Change>,
    encounter: &Encounter,
    part: Part,
    sender: u8,
    receiver: u8,
    sent: u16,
) -> Result<(), AllocError>
    ensures { OnOk result (changes.new.items ≡ changes.old.items ++ losses_by encounter.now part sender receiver sent) }
{
    match part {
        Part::Singles => add_singles(changes, encounter, sender, receiver, sent),
        Part::Fronts => add_fronts(changes, sender, receiver, sent),
    }
}
