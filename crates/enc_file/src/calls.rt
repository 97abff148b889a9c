// The call signs that were read.
ghost use Rattle.std.specs.Prelude.{◌≡◌, ◌++◌, IfOk, OnOk};
ghost use Rattle.acas_base.specs.declared.TheConstants.{CRAFTS};
ghost use Rattle.enc_file.specs.Earlier.{by_group, call_by, call_group, in_group};
ghost use Rattle.enc_file.specs.Faults.{has_call, is_called};

use acas_base::{CRAFTS, Call, Label};
use std::alloc::{AllocError, Global};

pub(crate) fn call_by(sign: Label, craft: u8) -> Call
    ensures { result ≡ call_by sign craft }
{
    Call { craft, sign }
}

/// Whether an aircraft has a call sign.
pub(crate) fn has_call(calls: &[Call], craft: usize) -> bool
    ensures { result ≡ has_call calls.now craft }
{
    calls.iter().any(|call| usize::from(call.craft) == craft)
}

/// Whether a call sign is that of an aircraft.
pub(crate) fn is_called(calls: &[Call], sign: &[u8]) -> bool
    ensures { result ≡ is_called calls.now sign.now }
{
    calls.iter().any(|call| call.sign.bytes() == sign)
}

// Adds those of an aircraft.
fn add_own(all: &mut Vec<Call>, calls: &[Call], craft: usize) -> Result<(), AllocError>
    ensures { OnOk result (all.new.items ≡ all.old.items ++ in_group call_group calls.now craft) }
{
    for call in calls {
        if usize::from(call.craft) == craft {
            all.push(*call)?;
        }
    }
    Ok(())
}

/// All of them, by aircraft. The error says that memory was wanting.
pub(crate) fn calls_by_craft(alloc: Global, calls: &[Call]) -> Result<Vec<Call>, AllocError>
    ensures { IfOk result (λ all. all.items ≡ by_group call_group CRAFTS calls.now) }
{
    let mut all = Vec::new(alloc);
    for craft in 0..CRAFTS {
        add_own(&mut all, calls, craft)?;
    }
    Ok(all)
}
