// Which aircraft leaves the box, where a text is refused for it.
ghost use Rattle.std.specs.Prelude.{◌≡◌, ◌-◌, ◌<◌, ◌^◌, Err, IfOk, Some, length};
ghost use Rattle.enc_file.specs.Reading.{reading_of};
ghost use Rattle.enc_file.specs.Values.{address_in};
ghost use Rattle.enc_file.specs.declared.refusal.Code.TheVariants as code;
ghost use Rattle.fault_text.specs.Outside.{IsGivenBefore, TellsOutside};

use crate::before::encounter_before;
use crate::earlier::{Sought, last_before};
use crate::fault::Why;
use crate::fields::field;
use crate::leaving::first_leaving;
use crate::names::RecordKind;
use acas_base::Address;
use enc_file::Refusal;
use std::alloc::{AllocError, Global};

// The field of an earlier `craft` record that has this address.
fn address_before(text: &[u8], refusal: Refusal, address: Address) -> &[u8]
    requires few { length text.now < 2 ^ 32 - 1 }
    requires given { IsGivenBefore text.now refusal address }
    ensures { address_in result.now ≡ Some address }
{
    let of = Sought {
        kind: RecordKind::Craft,
        first: Some(address),
        second: None,
    };
    match last_before(text, refusal.at, &of) {
        Some(place) => field(place.line, 1),
        None => unreachable!(),
    }
}

/// Which aircraft leaves the box first, and where. The error says that memory was wanting.
pub(crate) fn outside_why(
    alloc: Global,
    text: &[u8],
    refusal: Refusal,
) -> Result<Why<'_>, AllocError>
    requires few { length text.now < 2 ^ 32 - 1 }
    requires code { refusal.code ≡ code.Box }
    requires refused { reading_of text.now ≡ Err refusal }
    ensures { IfOk result (TellsOutside text.now refusal) }
{
    let encounter = encounter_before(alloc, text, refusal)?;
    let Some(leaving) = first_leaving(&encounter) else {
        unreachable!();
    };
    let address = encounter.crafts()[usize::from(leaving.craft)].address;
    Ok(Why::Outside {
        craft: address_before(text, refusal, address),
        cycle: leaving.cycle,
        axis: leaving.axis,
        value: leaving.value,
    })
}
