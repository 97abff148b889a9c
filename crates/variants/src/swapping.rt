// Addresses that are exchanged.
ghost use Rattle.std.specs.Prelude.{◌≡◌, ◌<◌, IfOk, length};
ghost use Rattle.variants.specs.Exchanges.{exchanged, with_address};
ghost use Rattle.variants.specs.Variants.{IsAnswer};
ghost use Rattle.variants.specs.declared.change.Change.TheVariants.{Exchanged};

use crate::Exchange;
use crate::making::made_inside;
use acas_base::{Address, CraftSpec, Encounter};
use std::alloc::{AllocError, Global};

// The aircraft with another address.
fn with_address(craft: &CraftSpec, address: Address) -> CraftSpec
    ensures { result ≡ with_address address craft.now }
{
    CraftSpec { address, ..*craft }
}

// The aircraft, where two have exchanged their addresses.
fn exchanged_crafts(
    alloc: Global,
    crafts: &[CraftSpec],
    pair: Exchange,
) -> Result<Vec<CraftSpec>, AllocError>
    requires one { pair.one < length crafts.now }
    requires two { pair.two < length crafts.now }
    ensures { IfOk result (λ made. made.items ≡ exchanged pair crafts.now) }
{
    let one = usize::from(pair.one);
    let two = usize::from(pair.two);
    let mut made = Vec::from_slice(alloc, crafts)?;
    made[one] = with_address(&crafts[one], crafts[two].address);
    made[two] = with_address(&made[two], crafts[one].address);
    Ok(made)
}

// The variant with the addresses of two aircraft exchanged.
pub(crate) fn exchanged(
    alloc: Global,
    encounter: &Encounter,
    pair: Exchange,
) -> Result<Option<Encounter>, AllocError>
    ensures { IfOk result (λ made. IsAnswer encounter.now (Exchanged pair) made) }
{
    let count = encounter.crafts().len();
    if usize::from(pair.one) >= count {
        return Ok(None);
    }
    if usize::from(pair.two) >= count {
        return Ok(None);
    }
    made_inside(
        alloc,
        encounter,
        exchanged_crafts(alloc, encounter.crafts(), pair)?,
        Vec::from_slice(alloc, encounter.legs())?,
        Vec::from_slice(alloc, encounter.fates())?,
    )
}
