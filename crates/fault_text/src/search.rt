// The leftmost field of a record that has a fault of one code.
ghost use Rattle.std.specs.Prelude.{◌≡◌};
ghost use Rattle.enc_file.specs.declared.refusal.Code.TheVariants as code;
ghost use Rattle.fault_text.specs.Names.{fails};
ghost use Rattle.fault_text.specs.Told.{IsLeftmost};

use crate::fields::Fields;
use crate::names::{Content, FieldName};
use enc_file::{
    Code, address_in, clock_in, kind_in, label_in, mask_in, number_in, profile_in, sign_in,
};

// The most bits that a mask flips.
const BITS: u32 = 3;

// Whether a field is no value, where it isn't an address.
fn has_no_value(name: FieldName, found: &[u8]) -> bool
    ensures { result ≡ fails code.Number name found.now }
{
    match name.content() {
        Content::Whole { low, high } => number_in(found, low, high).is_none(),
        Content::Kind => kind_in(found).is_none(),
        Content::Mask => mask_in(found).is_none(),
        Content::Profile => profile_in(found).is_none(),
        Content::Label => label_in(found).is_none(),
        Content::Clock => clock_in(found).is_none(),
        Content::Sign => sign_in(found).is_none(),
        Content::Address => false,
    }
}

// Whether a field is no address, where it has to be one.
fn has_no_address(name: FieldName, found: &[u8]) -> bool
    ensures { result ≡ fails code.Address name found.now }
{
    match name.content() {
        Content::Address => address_in(found).is_none(),
        _ => false,
    }
}

// Whether a field is a mask with too many bits.
fn has_many_bits(name: FieldName, found: &[u8]) -> bool
    ensures { result ≡ fails code.Mask name found.now }
{
    match name.content() {
        Content::Mask => match mask_in(found) {
            Some(mask) => BITS < mask.count_ones(),
            None => false,
        },
        _ => false,
    }
}

// Whether a field fails its part of a code's condition.
fn fails(code: Code, name: FieldName, found: &[u8]) -> bool
    ensures { result ≡ fails code name found.now }
{
    match code {
        Code::Number => has_no_value(name, found),
        Code::Address => has_no_address(name, found),
        Code::Mask => has_many_bits(name, found),
        _ => false,
    }
}

/// Of the fields with these names, which stand behind the first field of a record, the leftmost one that fails its part
/// of a code's condition, and what stands there. The code is Number, Address or Mask; of other codes there is none.
pub fn leftmost<'a>(
    code: Code,
    names: &[FieldName],
    line: &'a [u8],
) -> Option<(FieldName, &'a [u8])>
    ensures { IsLeftmost code names.now line.now result }
{
    let mut fields = Fields::of(line);
    let _ = fields.next();
    for name in names {
        let Some(found) = fields.next() else {
            return None;
        };
        if fails(code, *name, found) {
            return Some((*name, found));
        }
    }
    None
}
