// What becomes of messages.
ghost use Rattle.std.specs.Prelude.{◌≡◌, ◌+◌, ◌^◌, ◌<◌, ◌≤◌, [], IfOk, OnOk, length};
ghost use Rattle.std.specs.Option.{option_to_list};
ghost use Rattle.acas_base.specs.Ranges.{IsCycle};
ghost use Rattle.enc_gen.specs.Draws.{draw};
ghost use Rattle.enc_gen.specs.Fates.{fate, fate_by, fate_of, fates, is_link, is_ra_at, link_fates, own_fates};
ghost use Rattle.enc_gen.specs.Making.{Makes, each};

use crate::draws::Draws;
use acas_base::{CopyPlan, CraftSpec, Fate};
use std::alloc::{AllocError, Global};

const PLAIN: CopyPlan = CopyPlan { hold: 0, mask: 0 };

fn is_ra_at(crafts: &[CraftSpec], craft: u8) -> bool
    ensures { result ≡ is_ra_at crafts.now craft }
{
    match crafts.get(usize::from(craft)) {
        Some(spec) => spec.kind.resolves(),
        None => false,
    }
}

// A fate of `copies` copies. The first may be held back or damaged.
fn fate_of(sender: u8, receiver: u8, number: u16, copies: u8, first: CopyPlan) -> Fate
    ensures { result ≡ fate_of sender receiver number copies first }
{
    Fate {
        sender,
        receiver,
        number,
        copies,
        first,
        second: PLAIN,
        third: PLAIN,
    }
}

// A copy that is held back.
fn draw_held(draws: &mut Draws) -> CopyPlan
    ensures hold { result.hold ≡ 1 + (draw 5 draws.old).number }
    ensures mask { result.mask ≡ 0 }
    ensures state { draws.new ≡ (draw 5 draws.old).state }
{
    CopyPlan {
        hold: 1 + draws.draw(5) as u8,
        mask: 0,
    }
}

// A copy with one bit that is flipped.
fn draw_damaged(draws: &mut Draws) -> CopyPlan
    ensures hold { result.hold ≡ 0 }
    ensures mask { result.mask ≡ 2 ^ (draw 8 draws.old).number }
    ensures state { draws.new ≡ (draw 8 draws.old).state }
{
    CopyPlan {
        hold: 0,
        mask: 1 << draws.draw(8),
    }
}

// The fate for a number that is drawn.
#[tactic(auto, unfolding(crate::specs::Fates::fate_by))]
fn fate_by(draws: &mut Draws, number: u32, sender: u8, receiver: u8, message: u16) -> Option<Fate>
    ensures items { option_to_list result ≡ (fate_by number sender receiver message draws.old).items }
    ensures state { draws.new ≡ (fate_by number sender receiver message draws.old).state }
{
    match number {
        0 => Some(fate_of(sender, receiver, message, 0, PLAIN)),
        1 => Some(fate_of(sender, receiver, message, 2, PLAIN)),
        2 => Some(fate_of(sender, receiver, message, 1, draw_held(draws))),
        3 => Some(fate_of(sender, receiver, message, 1, draw_damaged(draws))),
        _ => None,
    }
}

// Adds the fate of the message after `before` others, if one is drawn.
fn add_fate(
    draws: &mut Draws,
    fates: &mut Vec<Fate>,
    sender: u8,
    receiver: u8,
    before: u16,
) -> Result<(), AllocError>
    requires { before < 600 }
    ensures { OnOk result (Makes (fate sender receiver before) draws.old fates.old.items draws.new fates.new.items) }
{
    let number = draws.draw(10);
    if let Some(fate) = fate_by(draws, number, sender, receiver, before + 1) {
        fates.push(fate)?;
    }
    Ok(())
}

// Adds the fates of the messages of a sender to a receiver.
fn add_link_fates(
    draws: &mut Draws,
    fates: &mut Vec<Fate>,
    crafts: &[CraftSpec],
    cycles: u16,
    sender: u8,
    receiver: u8,
) -> Result<(), AllocError>
    requires { IsCycle cycles }
    ensures { OnOk result (Makes (link_fates crafts.now cycles sender receiver) draws.old fates.old.items draws.new fates.new.items) }
{
    if !is_link(crafts, sender, receiver) {
        return Ok(());
    }
    for before in 0..cycles {
        add_fate(draws, fates, sender, receiver, before)?;
    }
    Ok(())
}

// Whether a receiver is RA, and another one than the sender.
fn is_link(crafts: &[CraftSpec], sender: u8, receiver: u8) -> bool
    ensures { result ≡ is_link crafts.now sender receiver }
{
    is_ra_at(crafts, receiver) && receiver != sender
}

// Adds the fates of the messages of a sender.
fn add_fates(
    draws: &mut Draws,
    fates: &mut Vec<Fate>,
    crafts: &[CraftSpec],
    cycles: u16,
    sender: u8,
) -> Result<(), AllocError>
    requires cycles { IsCycle cycles }
    requires few { length crafts.now < 256 }
    ensures { OnOk result (Makes (own_fates crafts.now cycles sender) draws.old fates.old.items draws.new fates.new.items) }
{
    if !is_ra_at(crafts, sender) {
        return Ok(());
    }
    for receiver in 0..crafts.len() as u8 {
        add_link_fates(draws, fates, crafts, cycles, sender, receiver)?;
    }
    Ok(())
}

// The fates of the messages of all aircraft.
pub(crate) fn draw_fates(
    alloc: Global,
    draws: &mut Draws,
    crafts: &[CraftSpec],
    cycles: u16,
) -> Result<Vec<Fate>, AllocError>
    requires cycles { IsCycle cycles }
    requires few { length crafts.now < 256 }
    ensures { IfOk result (λ list. Makes (fates crafts.now cycles) draws.old [] draws.new list.items) }
{
    let mut fates = Vec::new(alloc);
    for sender in 0..crafts.len() as u8 {
        add_fates(draws, &mut fates, crafts, cycles, sender)?;
    }
    Ok(fates)
}
