// Messages that are lost.
ghost use Rattle.std.specs.Prelude.{◌≡◌, ◌+◌, ◌-◌, ◌≤◌, IfOk, filter, map};
ghost use Rattle.std.specs.List.{range_with_len};
ghost use Rattle.variants.specs.Losses.{is_before, is_behind, lost_fate, lost_fates, with_losses};
ghost use Rattle.variants.specs.Variants.{IsAnswer};
ghost use Rattle.variants.specs.declared.change.Change.TheVariants.{Lost};

use crate::Loss;
use crate::making::made_inside;
use acas_base::{CopyPlan, Encounter, Fate, Record};
use std::alloc::{AllocError, Global};

// The fate of a message that is lost.
fn lost_fate(sender: u8, receiver: u8, number: u16) -> Fate
    ensures { result ≡ lost_fate sender receiver number }
{
    let unused = CopyPlan { hold: 0, mask: 0 };
    Fate {
        sender,
        receiver,
        number,
        copies: 0,
        first: unused,
        second: unused,
        third: unused,
    }
}

// The fates of the lost messages.
fn lost_fates(alloc: Global, loss: Loss) -> Result<Vec<Fate>, AllocError>
    requires { loss.first ≤ loss.last }
    ensures { IfOk result (λ fates. fates.items ≡ lost_fates loss) }
{
    let mut fates = Vec::new(alloc);
    for place in 0..loss.last - loss.first {
        fates.push(lost_fate(loss.sender, loss.receiver, loss.first + place))?;
    }
    fates.push(lost_fate(loss.sender, loss.receiver, loss.last))?;
    Ok(fates)
}

// The fates that stand before those of the lost messages.
fn fates_before(alloc: Global, fates: &[Fate], loss: Loss) -> Result<Vec<Fate>, AllocError>
    ensures { IfOk result (λ kept. kept.items ≡ filter (is_before loss) fates.now) }
{
    let first = lost_fate(loss.sender, loss.receiver, loss.first);
    let mut kept = Vec::from_slice(alloc, fates)?;
    kept.retain(|fate| fate.is_below(&first));
    Ok(kept)
}

// The fates that stand behind those of the lost messages.
fn fates_behind(alloc: Global, fates: &[Fate], loss: Loss) -> Result<Vec<Fate>, AllocError>
    ensures { IfOk result (λ kept. kept.items ≡ filter (is_behind loss) fates.now) }
{
    let last = lost_fate(loss.sender, loss.receiver, loss.last);
    let mut kept = Vec::from_slice(alloc, fates)?;
    kept.retain(|fate| last.is_below(fate));
    Ok(kept)
}

// The fates, where these messages are lost.
fn with_losses(alloc: Global, fates: &[Fate], loss: Loss) -> Result<Vec<Fate>, AllocError>
    requires { loss.first ≤ loss.last }
    ensures { IfOk result (λ made. made.items ≡ with_losses loss fates.now) }
{
    let mut made = fates_before(alloc, fates, loss)?;
    made.extend_from_slice(lost_fates(alloc, loss)?.as_slice())?;
    made.extend_from_slice(fates_behind(alloc, fates, loss)?.as_slice())?;
    Ok(made)
}

// The variant with these messages lost.
pub(crate) fn lossy(
    alloc: Global,
    encounter: &Encounter,
    loss: Loss,
) -> Result<Option<Encounter>, AllocError>
    ensures { IfOk result (λ made. IsAnswer encounter.now (Lost loss) made) }
{
    if loss.first > loss.last {
        return Ok(None);
    }
    made_inside(
        alloc,
        encounter,
        Vec::from_slice(alloc, encounter.crafts())?,
        Vec::from_slice(alloc, encounter.legs())?,
        with_losses(alloc, encounter.fates(), loss)?,
    )
}
