// Measurements that are missed.
ghost use Rattle.std.specs.Prelude.{◌≡◌, ◌<◌, ◌≤◌, ◌∷◌, [], IfOk, OnOk, length};
ghost use Rattle.acas_base.specs.Ranges.{IsCycle};
ghost use Rattle.enc_gen.specs.Making.{Makes};
ghost use Rattle.enc_gen.specs.Misses.{misses, own_misses, pair_miss, some_miss};

use crate::draws::Draws;
use acas_base::{CraftSpec, Miss, is_active_at};
use std::alloc::{AllocError, Global};

// A miss within the run.
fn some_miss(draws: &mut Draws, cycles: u16, own: u8, target: u8) -> Miss
    requires { IsCycle cycles }
    ensures value { result ∷ [] ≡ (some_miss cycles own target draws.old).items }
    ensures state { draws.new ≡ (some_miss cycles own target draws.old).state }
{
    let from = 1 + draws.draw(u32::from(cycles));
    let to = from + draws.draw(8);
    Miss {
        own,
        target,
        from: from as u16,
        to: cycles.min(to as u16),
    }
}

// Adds the miss of a pair, if one is drawn.
#[tactic(auto, unfolding(crate::specs::Making::only, crate::specs::Misses::miss))]
fn add_miss(
    draws: &mut Draws,
    misses: &mut Vec<Miss>,
    cycles: u16,
    own: u8,
    target: u8,
) -> Result<(), AllocError>
    requires { IsCycle cycles }
    ensures { OnOk result (Makes (pair_miss cycles own target) draws.old misses.old.items draws.new misses.new.items) }
{
    if target == own {
        return Ok(());
    }
    if draws.draw(4) == 0 {
        misses.push(some_miss(draws, cycles, own, target))?;
    }
    Ok(())
}

// Adds the misses of an own aircraft.
fn add_misses(
    draws: &mut Draws,
    misses: &mut Vec<Miss>,
    crafts: &[CraftSpec],
    cycles: u16,
    own: u8,
) -> Result<(), AllocError>
    requires cycles { IsCycle cycles }
    requires few { length crafts.now < 256 }
    ensures { OnOk result (Makes (own_misses crafts.now cycles own) draws.old misses.old.items draws.new misses.new.items) }
{
    if !is_active_at(crafts, own) {
        return Ok(());
    }
    for target in 0..crafts.len() as u8 {
        add_miss(draws, misses, cycles, own, target)?;
    }
    Ok(())
}

// The misses of all aircraft.
pub(crate) fn draw_misses(
    alloc: Global,
    draws: &mut Draws,
    crafts: &[CraftSpec],
    cycles: u16,
) -> Result<Vec<Miss>, AllocError>
    requires cycles { IsCycle cycles }
    requires few { length crafts.now < 256 }
    ensures { IfOk result (λ list. Makes (misses crafts.now cycles) draws.old [] draws.new list.items) }
{
    let mut misses = Vec::new(alloc);
    for own in 0..crafts.len() as u8 {
        add_misses(draws, &mut misses, crafts, cycles, own)?;
    }
    Ok(misses)
}
