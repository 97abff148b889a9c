// What the fields of a record say.
ghost use Rattle.std.specs.Prelude.{◌≡◌, ◌≤◌, ◌<◌, ◌+◌, IfSome};
ghost use Rattle.acas_base.specs.Ranges.{IsBetween};
ghost use Rattle.csv.specs.Records.{fields_of};
ghost use Rattle.enc_file.specs.Values.{address_in, copies_count, copies_from, copy_from, copy_in, count_in, field, kind_in, label_in, mask_in, number_in, profile_in, sign_in};
ghost use Rattle.enc_file.specs.WellRead.{AreCopiesSaid, IsCopySaid};

use crate::record::Copies;
use acas_base::{Address, CopyPlan, Kind, Label, Profile, is_call_sign};
use acas_text::{parse, parse_hex};
use csv::ByteRecord;

/// The field at a place, from 0; an empty one past the last.
pub fn field(row: &ByteRecord, place: usize) -> &[u8]
    ensures { result.now ≡ field (fields_of row.now) place }
{
    match row.get(place) {
        Some(bytes) => bytes,
        None => b"",
    }
}

/// The number from `low` to `high` whose plain decimal a field is.
#[tactic(auto, unfolding(crate::specs::Values::number_in))]
pub fn number_in(bytes: &[u8], low: i32, high: i32) -> Option<i32>
    ensures value { result ≡ number_in low high bytes.now }
    ensures range { IfSome result (IsBetween low high) }
{
    let number = parse(bytes)?;
    if number < i64::from(low) {
        return None;
    }
    if i64::from(high) < number {
        return None;
    }
    Some(number as i32)
}

/// The same for numbers that aren't below 0.
#[tactic(auto, unfolding(crate::specs::Values::count_in))]
pub fn count_in(bytes: &[u8], low: u16, high: u16) -> Option<u16>
    ensures value { result ≡ count_in low high bytes.now }
    ensures range { IfSome result (λ n. (low ≤ n) × (n ≤ high)) }
{
    let number = number_in(bytes, i32::from(low), i32::from(high))?;
    Some(number as u16)
}

/// The address that a field spells.
#[tactic(auto, unfolding(crate::specs::Values::address_in))]
pub fn address_in(bytes: &[u8]) -> Option<Address>
    ensures { result ≡ address_in bytes.now }
{
    Address::new(parse_hex(bytes, 6)? as u32)
}

/// The mask that a field spells in two digits 0-9A-F.
#[tactic(auto, unfolding(crate::specs::Values::mask_in))]
pub fn mask_in(bytes: &[u8]) -> Option<u8>
    ensures { result ≡ mask_in bytes.now }
{
    Some(parse_hex(bytes, 2)? as u8)
}

/// The kind of aircraft that a field names.
pub fn kind_in(bytes: &[u8]) -> Option<Kind>
    ensures { result ≡ kind_in bytes.now }
{
    if bytes == b"RA".as_slice() {
        return Some(Kind::Ra);
    }
    if bytes == b"TA".as_slice() {
        return Some(Kind::Ta);
    }
    if bytes == b"XPDR".as_slice() {
        return Some(Kind::Xpdr);
    }
    None
}

/// The profile whose number a field is.
pub fn profile_in(bytes: &[u8]) -> Option<Profile>
    ensures { result ≡ profile_in bytes.now }
{
    if bytes == b"1".as_slice() {
        return Some(Profile::One);
    }
    if bytes == b"2".as_slice() {
        return Some(Profile::Two);
    }
    None
}

/// The label that a field is.
pub fn label_in(bytes: &[u8]) -> Option<Label>
    ensures { result ≡ label_in bytes.now }
{
    Label::new(bytes)
}

/// The call sign that a field is.
pub fn sign_in(bytes: &[u8]) -> Option<Label>
    ensures { result ≡ sign_in bytes.now }
{
    if !is_call_sign(bytes) {
        return None;
    }
    Label::new(bytes)
}

// A copy: the commits for which it is held back, and the mask.
fn copy_in(held: &[u8], masked: &[u8]) -> Option<CopyPlan>
    ensures value { result ≡ copy_in held.now masked.now }
    ensures range { IfSome result (λ copy. (copy.hold ≤ 60) × (copy.mask < 256)) }
{
    let hold = count_in(held, 0, 60)?;
    let mask = mask_in(masked)?;
    Some(CopyPlan {
        hold: hold as u8,
        mask,
    })
}

// The copy with a number, from 0, among `count` copies that stand from a place on. It is inlined where place and number
// are known.
#[inline(always)]
fn copy_from(row: &ByteRecord, start: u8, count: u8, number: u8) -> Option<CopyPlan>
    requires { start + number + number + 1 < 256 }
    ensures value { result ≡ copy_from (fields_of row.now) start count number }
    ensures range { IfSome result (IsCopySaid number count) }
{
    if count <= number {
        return Some(CopyPlan { hold: 0, mask: 0 });
    }
    let place = usize::from(start + (number + number));
    copy_in(field(row, place), field(row, place + 1))
}

/// The `count` copies that stand from a place on.
#[inline(always)]
pub(crate) fn copies_from(row: &ByteRecord, start: u8, count: u8) -> Option<Copies>
    requires start { start ≤ 4 }
    requires few { count ≤ 3 }
    ensures value { result ≡ copies_from (fields_of row.now) start count }
    ensures ranges { IfSome result AreCopiesSaid }
{
    let first = copy_from(row, start, count, 0)?;
    let second = copy_from(row, start, count, 1)?;
    let third = copy_from(row, start, count, 2)?;
    Some(Copies {
        count,
        first,
        second,
        third,
    })
}

/// How many copies a record of `fields` fields has, from a place on.
pub(crate) fn copies_count(start: u8, fields: usize) -> Option<u8>
    requires { start ≤ 4 }
    ensures value { result ≡ copies_count start fields }
    ensures few { IfSome result (λ count. count ≤ 3) }
{
    let start = usize::from(start);
    if fields == start {
        return Some(0);
    }
    if fields == start + 2 {
        return Some(1);
    }
    if fields == start + 4 {
        return Some(2);
    }
    if fields == start + 6 {
        return Some(3);
    }
    None
}
