// The changes of a row.
ghost use Rattle.std.specs.Prelude.{◌≡◌, ◌++◌, ◌∷◌, [], ◌≤◌, ◌<◌, ◌^◌, pos, ◌*ℤ◌, All, IfOk, OnOk, length, unsigned_abs};
ghost use Rattle.variants.specs.Rows.{AreValues, exchanges_among, exchanges_by, exchanges_from, exchanges_of, is_ra_at, shifts_of, value_at};
ghost use Rattle.variants.specs.Variants.{IsSmall};

use crate::{Change, Exchange, Quantity, Shift};
use acas_base::CraftSpec;
use std::alloc::{AllocError, Global};

/// `count` values: the first one, and each next one greater by `step`.
#[derive(Clone, Copy)]
pub struct Values {
    pub first: i32,
    pub count: u16,
    pub step: i32,
}

// For the proof: the bounds of a product.
fn product(step: i32, place: u16) -> i64
    requires step { unsigned_abs step ≤ 2000000 }
    requires place { place < 4096 }
    ensures value { result ≡ step *ℤ pos place }
    ensures bound { unsigned_abs result ≤ 8190000000 }
{
    i64::from(step) * i64::from(place)
}

// The value at a place of the row.
fn value_at(values: Values, place: u16) -> i64
    requires values { AreValues values }
    requires place { place < values.count }
    ensures value { result ≡ value_at values place }
    ensures small { unsigned_abs result ≤ 2 ^ 33 }
{
    i64::from(values.first) + product(values.step, place)
}

/// A change of an aircraft for each of these values, in order. The error says that memory was wanting.
pub fn shifts(
    alloc: Global,
    quantity: Quantity,
    craft: u8,
    values: Values,
) -> Result<Vec<Change>, AllocError>
    requires { AreValues values }
    ensures row { IfOk result (λ changes. changes.items ≡ shifts_of quantity craft values) }
    ensures small { IfOk result (λ changes. All IsSmall changes.items) }
    ensures few { IfOk result (λ changes. length changes.items ≤ 4096) }
{
    let mut changes = Vec::with_capacity(alloc, usize::from(values.count))?;
    for place in 0..values.count {
        let value = value_at(values, place);
        changes.push(Change::Shifted(Shift {
            quantity,
            craft,
            value,
        }))?;
    }
    Ok(changes)
}

// Whether there is an aircraft of kind RA at the index.
fn is_ra_at(crafts: &[CraftSpec], craft: u8) -> bool
    ensures { result ≡ is_ra_at crafts.now craft }
{
    match crafts.get(usize::from(craft)) {
        Some(craft) => craft.kind.resolves(),
        None => false,
    }
}

// Adds the exchange of two aircraft, where the second one is of kind RA.
fn add_exchange(
    changes: &mut Vec<Change>,
    crafts: &[CraftSpec],
    one: u8,
    two: u8,
) -> Result<(), AllocError>
    ensures added { OnOk result (changes.new.items ≡ changes.old.items ++ exchanges_among crafts.now one (two ∷ [])) }
    ensures small { OnOk result (All IsSmall changes.old.items → All IsSmall changes.new.items) }
{
    if is_ra_at(crafts, two) {
        changes.push(Change::Exchanged(Exchange { one, two }))?;
    }
    Ok(())
}

// Adds the exchanges of an aircraft with those of kind RA behind it.
fn add_exchanges(changes: &mut Vec<Change>, crafts: &[CraftSpec], one: u8) -> Result<(), AllocError>
    requires few { length crafts.now ≤ 16 }
    requires one { one < length crafts.now }
    ensures added { OnOk result (changes.new.items ≡ changes.old.items ++ exchanges_from crafts.now one) }
    ensures small { OnOk result (All IsSmall changes.old.items → All IsSmall changes.new.items) }
{
    let first = usize::from(one) + 1;
    for place in 0..crafts.len() - first {
        add_exchange(changes, crafts, one, (first + place) as u8)?;
    }
    Ok(())
}

// Adds these exchanges, where the aircraft itself is of kind RA.
fn add_exchanges_of(
    changes: &mut Vec<Change>,
    crafts: &[CraftSpec],
    one: u8,
) -> Result<(), AllocError>
    requires few { length crafts.now ≤ 16 }
    requires one { one < length crafts.now }
    ensures added { OnOk result (changes.new.items ≡ changes.old.items ++ exchanges_by crafts.now (one ∷ [])) }
    ensures small { OnOk result (All IsSmall changes.old.items → All IsSmall changes.new.items) }
{
    if is_ra_at(crafts, one) {
        add_exchanges(changes, crafts, one)?;
    }
    Ok(())
}

/// The addresses of each two aircraft of kind RA exchanged, by their indices, in order. The error says that memory was
/// wanting.
pub fn exchanges(alloc: Global, crafts: &[CraftSpec]) -> Result<Vec<Change>, AllocError>
    requires { length crafts.now ≤ 16 }
    ensures row { IfOk result (λ changes. changes.items ≡ exchanges_of crafts.now) }
    ensures small { IfOk result (λ changes. All IsSmall changes.items) }
    ensures few { IfOk result (λ changes. length changes.items ≤ 256) }
{
    let mut changes = Vec::new(alloc);
    for index in 0..crafts.len() {
        add_exchanges_of(&mut changes, crafts, index as u8)?;
    }
    Ok(changes)
}
