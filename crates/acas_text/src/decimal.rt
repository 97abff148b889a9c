// Plain decimals.
ghost use Rattle.std.specs.Prelude.{◌≡◌, ◌<◌, ◌≤◌, ◌^◌, ℤ, length, IfSome, IfNone, MatchBool, MatchOption};
ghost use Rattle.std.specs.Char.{digit_value};
ghost use Rattle.std.specs.Fmt.{decimal};
ghost use Rattle.acas_text.specs.Decimal.{IsPlain, IsShort, SpellsWithin};

// The greatest number of ten digits.
const MOST: u64 = 9_999_999_999;

// The value of a digit 0-9.
fn digit_of(glyph: u8) -> Option<u8>
    ensures { MatchOption result (10 ≤ digit_value glyph) (λ digit. (digit < 10) × (digit_value glyph ≡ digit)) }
{
    match glyph {
        b'0'..=b'9' => Some(glyph - b'0'),
        _ => None,
    }
}

// Whether there is at least one byte, and no zero stands in front of other bytes.
fn is_short(bytes: &[u8]) -> bool
    ensures { MatchBool result (IsShort bytes.now) (IsShort bytes.now → ⊥) }
{
    match bytes {
        [] => false,
        [first, rest @ ..] => *first != b'0' || rest.is_empty(),
    }
}

// The number up to `high` whose plain decimal the bytes are.
fn parse_up_to(bytes: &[u8], high: u64) -> Option<u64>
    requires { high < 10 ^ 10 }
    ensures { SpellsWithin 0 high bytes.now result }
{
    if !is_short(bytes) {
        return None;
    }
    let mut value = 0u64;
    for glyph in bytes {
        let digit = digit_of(*glyph)?;
        value = value * 10 + u64::from(digit);
        if high < value {
            return None;
        }
    }
    Some(value)
}

/// The number that a plain decimal of at most ten digits spells.
///
/// A plain decimal is an optional `-` and digits. No zero stands in front, except in `0` itself, and `-0` is none.
/// `None` comes exactly where the bytes are something else or have more digits.
pub fn parse(bytes: &[u8]) -> Option<i64>
    ensures some { IfSome result (IsPlain bytes.now) }
    ensures none { IfNone result ((n : ℤ) → IsPlain bytes.now n → ⊥) }
{
    match bytes {
        [b'-', digits @ ..] => {
            let Some(size) = parse_up_to(digits, MOST) else {
                return None;
            };
            if size == 0 {
                return None;
            }
            Some(-(size as i64))
        }
        _ => {
            let Some(size) = parse_up_to(bytes, MOST) else {
                return None;
            };
            Some(size as i64)
        }
    }
}

/// The number from `low` to `high` whose plain decimal the bytes are. `None` comes exactly where the bytes are the
/// plain decimal of no such number.
pub fn parse_within(bytes: &[u8], low: u32, high: u32) -> Option<u32>
    ensures { SpellsWithin low high bytes.now result }
{
    let Some(value) = parse_up_to(bytes, u64::from(high)) else {
        return None;
    };
    if value < u64::from(low) {
        return None;
    }
    Some(value as u32)
}

/// How many digits the plain decimal of a number has.
pub(crate) fn count_digits(value: u64) -> usize
    requires { value < 10 ^ 10 }
    ensures { result ≡ length (decimal value) }
{
    match value {
        0..=9 => 1,
        10..=99 => 2,
        100..=999 => 3,
        1_000..=9_999 => 4,
        10_000..=99_999 => 5,
        100_000..=999_999 => 6,
        1_000_000..=9_999_999 => 7,
        10_000_000..=99_999_999 => 8,
        100_000_000..=999_999_999 => 9,
        _ => 10,
    }
}
