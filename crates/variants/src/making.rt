// Variants of an encounter.
ghost use Rattle.std.specs.Prelude.{◌≡◌, ◌<◌, IfOk, length, slice_set};
ghost use Rattle.variants.specs.Made.{IsMade, with_parts};
ghost use Rattle.variants.specs.Variants.{IsAnswer, IsSmall};

use crate::Change;
use crate::flights::shifted;
use crate::losses::lossy;
use crate::swapping::exchanged;
use acas_base::{CraftSpec, Encounter, Fate, Leg};
use flight::inside;
use std::alloc::{AllocError, Global};

// The aircraft, where one is replaced.
pub(crate) fn with_craft(
    alloc: Global,
    crafts: &[CraftSpec],
    index: usize,
    craft: CraftSpec,
) -> Result<Vec<CraftSpec>, AllocError>
    requires { index < length crafts.now }
    ensures { IfOk result (λ made. made.items ≡ slice_set crafts.now index craft) }
{
    let mut made = Vec::from_slice(alloc, crafts)?;
    made[index] = craft;
    Ok(made)
}

// The encounter with these aircraft, legs and fates, where it is one and its aircraft stay in the box.
pub(crate) fn made_inside(
    alloc: Global,
    encounter: &Encounter,
    crafts: Vec<CraftSpec>,
    legs: Vec<Leg>,
    fates: Vec<Fate>,
) -> Result<Option<Encounter>, AllocError>
    ensures { IfOk result (λ made. IsMade (with_parts encounter.now crafts.items legs.items fates.items) made) }
{
    let made = Encounter::make(
        encounter.setting(),
        Vec::from_slice(alloc, encounter.calls())?,
        crafts,
        legs,
        Vec::from_slice(alloc, encounter.misses())?,
        Vec::from_slice(alloc, encounter.plans())?,
        fates,
    );
    let Some(made) = made else {
        return Ok(None);
    };
    if !inside(&made) {
        return Ok(None);
    }
    Ok(Some(made))
}

/// The encounter with one thing changed, where there is such an encounter: all its numbers and legs are in their ranges,
/// and its aircraft stay in the box. Else none. By [`crate::one_variant_law`] there is only one. The error says that
/// memory was wanting.
pub fn varied(
    alloc: Global,
    encounter: &Encounter,
    change: Change,
) -> Result<Option<Encounter>, AllocError>
    requires { IsSmall change }
    ensures { IfOk result (λ made. IsAnswer encounter.now change made) }
{
    match change {
        Change::Shifted(shift) => shifted(alloc, encounter, shift),
        Change::Lost(loss) => lossy(alloc, encounter, loss),
        Change::Exchanged(pair) => exchanged(alloc, encounter, pair),
    }
}
