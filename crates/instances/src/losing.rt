// Messages that are lost on the way.
ghost use Rattle.std.specs.Prelude.{IfOk, IfSome};
ghost use Rattle.flight.specs.Inside.{IsInside};
ghost use Rattle.instances.specs.Having.{IsAskedInside};

use crate::planning::Plan;
use acas_base::{CRAFTS, Encounter};
use pair_ways::{Scope, Telling, Turns, Who};
use std::alloc::{AllocError, Global};
use variants::{Change, Loss, varied};

// The loss of a message from one aircraft to another one, where it is lost.
fn push_loss(
    losses: &mut Vec<Loss>,
    sender: u8,
    receiver: u8,
    telling: Telling,
) -> Result<(), AllocError> {
    if let Telling::Loses(number) = telling {
        losses.push(Loss {
            sender,
            receiver,
            first: number,
            last: number,
        })?;
    }
    Ok(())
}

// The losses of a round of two aircraft.
fn push_losses(
    losses: &mut Vec<Loss>,
    own: u8,
    other: u8,
    turns: &Turns,
) -> Result<(), AllocError> {
    let (low, high) = if own < other {
        (own, other)
    } else {
        (other, own)
    };
    let (first, second) = match turns.first {
        Who::Low => (low, high),
        Who::High => (high, low),
    };
    push_loss(losses, first, second, turns.told)?;
    push_loss(losses, second, first, turns.answer)?;
    push_loss(losses, second, first, turns.late)?;
    push_loss(losses, first, second, turns.early)
}

// The losses of a round.
fn push_round(
    losses: &mut Vec<Loss>,
    own: u8,
    round: &[Option<Turns>; CRAFTS],
) -> Result<(), AllocError> {
    for other in 0..CRAFTS {
        if let Some(turns) = &round[other] {
            push_losses(losses, own, other as u8, turns)?;
        }
    }
    Ok(())
}

// The messages that are lost.
fn losses_of(alloc: Global, plan: &Plan) -> Result<Vec<Loss>, AllocError> {
    let mut losses = Vec::new(alloc);
    for round in 0..plan.rounds.len() {
        push_round(&mut losses, plan.own, &plan.rounds[round])?;
    }
    Ok(losses)
}

// The encounter with these messages lost, where there is one.
fn with_losses(
    alloc: Global,
    encounter: &Encounter,
    losses: &[Loss],
) -> Result<Option<Encounter>, AllocError>
    requires { IsInside encounter.now }
    ensures { IfOk result (λ made. IfSome made (IsAskedInside Scope.Losses encounter.now)) }
{
    let mut made = encounter.copy(alloc)?;
    for at in 0..losses.len() {
        made = match varied(alloc, &made, Change::Lost(losses[at]))? {
            Some(next) => next,
            None => return Ok(None),
        };
    }
    Ok(Some(made))
}

/// The encounter in which the messages are lost that a plan loses.
pub(crate) fn encounter_for(
    alloc: Global,
    scope: Scope,
    encounter: &Encounter,
    plan: &Plan,
) -> Result<Option<Encounter>, AllocError>
    requires { IsInside encounter.now }
    ensures { IfOk result (λ made. IfSome made (IsAskedInside scope encounter.now)) }
{
    match scope {
        Scope::Orders => Ok(Some(encounter.copy(alloc)?)),
        Scope::Losses => with_losses(alloc, encounter, losses_of(alloc, plan)?.as_slice()),
    }
}
