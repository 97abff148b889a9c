// The words that say a variation.
ghost use Rattle.std.specs.Prelude.{◌≡◌, ◌≢◌, ◌∷◌, [], ◌≤◌, ◌<◌, ◌^◌, ℕ, ℤ, IfNone, IfSome, unsigned_abs};
ghost use Rattle.std.specs.Fmt.{signed_decimal};
ghost use Rattle.acas_text.specs.Hex.{hex};
ghost use Rattle.variants.specs.Rows.{AreValues};
ghost use Rattle.variants.specs.declared.change.Quantity.{Quantity};
ghost use Rattle.variants.specs.declared.rows.Values.{Values};
ghost use Rattle.variation_words.specs.Words.{IsInRange, quantity_word, value_words, words_of};
ghost use Rattle.variation_words.specs.declared.variation.Variation.{Variation};

use crate::Variation;
use acas_text::{parse, parse_hex, parse_within};
use variants::{Axis, Quantity, Values};

// The quantity of a word.
fn quantity_of(word: &str) -> Option<Quantity>
    ensures some { IfSome result (λ quantity. word.now ≡ quantity_word quantity) }
    ensures none { IfNone result ((quantity : Quantity) → word.now ≢ quantity_word quantity) }
{
    if word == "alt" {
        return Some(Quantity::Start(Axis::Altitude));
    }
    if word == "x" {
        return Some(Quantity::Start(Axis::X));
    }
    if word == "y" {
        return Some(Quantity::Start(Axis::Y));
    }
    if word == "late" {
        return Some(Quantity::Late);
    }
    None
}

// The address of a word of six digits 0-9A-F.
fn address_of(word: &str) -> Option<u32>
    ensures some { IfSome result (λ address. word.now ≡ hex 6 address) }
    ensures fits { IfSome result (λ address. address < 2 ^ 24) }
    ensures none { IfNone result ((address : ℕ) → address < 2 ^ 24 → word.now ≢ hex 6 address) }
{
    let address = parse_hex(word.as_bytes(), 6)?;
    Some(address as u32)
}

// The first value of a row, or the step from one to the next: -2,000,000 to 2,000,000.
fn value_of(word: &str) -> Option<i32>
    ensures some { IfSome result (λ value. word.now ≡ signed_decimal value) }
    ensures small { IfSome result (λ value. unsigned_abs value ≤ 2000000) }
    ensures none { IfNone result ((value : ℤ) → unsigned_abs value ≤ 2000000 → word.now ≢ signed_decimal value) }
{
    let value = parse(word.as_bytes())?;
    if value < -2_000_000 {
        return None;
    }
    if 2_000_000 < value {
        return None;
    }
    Some(value as i32)
}

// The row of values of three words.
fn values_of(first: &str, count: &str, step: &str) -> Option<Values>
    ensures some { IfSome result (λ values. first.now ∷ count.now ∷ step.now ∷ [] ≡ value_words values) }
    ensures valid { IfSome result AreValues }
    ensures none { IfNone result ((values : Values) → AreValues values → first.now ∷ count.now ∷ step.now ∷ [] ≢ value_words values) }
{
    let first = value_of(first)?;
    let count = parse_within(count.as_bytes(), 1, 4_096)?;
    let step = value_of(step)?;
    Some(Values {
        first,
        count: count as u16,
        step,
    })
}

/// The variation that one word says, `lose` or `swap`; none where it says none.
pub fn of_one(word: &str) -> Option<Variation>
    ensures some { IfSome result (λ variation. word.now ∷ [] ≡ words_of variation) }
    ensures valid { IfSome result IsInRange }
    ensures none { IfNone result ((variation : Variation) → IsInRange variation → word.now ∷ [] ≢ words_of variation) }
{
    if word == "lose" {
        return Some(Variation::Losses);
    }
    if word == "swap" {
        return Some(Variation::Exchanges);
    }
    None
}

/// The variation that five words say: a quantity, an address, the first value, how many values there are, and the step
/// from one to the next. None where they say none.
pub fn of_five(
    quantity: &str,
    address: &str,
    first: &str,
    count: &str,
    step: &str,
) -> Option<Variation>
    ensures some { IfSome result (λ variation. quantity.now ∷ address.now ∷ first.now ∷ count.now ∷ step.now ∷ [] ≡ words_of variation) }
    ensures valid { IfSome result IsInRange }
    ensures none { IfNone result ((variation : Variation) → IsInRange variation → quantity.now ∷ address.now ∷ first.now ∷ count.now ∷ step.now ∷ [] ≢ words_of variation) }
{
    let quantity = quantity_of(quantity)?;
    let address = address_of(address)?;
    let values = values_of(first, count, step)?;
    Some(Variation::Shifts {
        quantity,
        address,
        values,
    })
}
