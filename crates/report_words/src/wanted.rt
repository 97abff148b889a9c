// What a run is wanted for.
ghost use Rattle.std.specs.Prelude.{◌≡◌, ◌≢◌, ◌∷◌, [], ◌≤◌, ◌<◌, ◌^◌, ℕ, IfNone, IfSome};
ghost use Rattle.std.specs.Fmt.{decimal};
ghost use Rattle.acas_text.specs.Hex.{hex};
ghost use Rattle.report_words.specs.Wanting.{IsInRange, words_of};
ghost use Rattle.report_words.specs.declared.wanted.Wanted.{Wanted};

use crate::word::Word;
use acas_text::{parse_hex, parse_within};

/// What a run is to have. Aircraft are named by their addresses of 24 bits.
#[derive(Clone, Copy)]
pub enum Wanted {
    /// An aircraft has a word in a cycle, 1 to 600.
    Word {
        address: u32,
        cycle: u16,
        word: Word,
    },
    /// Two aircraft have equal senses against each other in so many cycles in a row, 1 to 600.
    Equal {
        one: u32,
        other: u32,
        cycles: u16,
    },
}

// The address of a word of six digits 0-9A-F.
fn address_of(word: &str) -> Option<u32>
    ensures some { IfSome result (λ address. word.now ≡ hex 6 address) }
    ensures fits { IfSome result (λ address. address < 2 ^ 24) }
    ensures none { IfNone result ((address : ℕ) → address < 2 ^ 24 → word.now ≢ hex 6 address) }
{
    let address = parse_hex(word.as_bytes(), 6)?;
    Some(address as u32)
}

// A number of cycles, 1 to 600.
fn cycles_of(word: &str) -> Option<u16>
    ensures some { IfSome result (λ cycles. word.now ≡ decimal cycles) }
    ensures least { IfSome result (λ cycles. 1 ≤ cycles) }
    ensures most { IfSome result (λ cycles. cycles ≤ 600) }
    ensures none { IfNone result ((cycles : ℕ) → 1 ≤ cycles → cycles ≤ 600 → word.now ≢ decimal cycles) }
{
    let cycles = parse_within(word.as_bytes(), 1, 600)?;
    Some(cycles as u16)
}

// An aircraft's word in a cycle.
fn word_of(address: &str, cycle: &str, word: &str) -> Option<Wanted>
    ensures some { IfSome result (λ wanted. address.now ∷ cycle.now ∷ word.now ∷ [] ≡ words_of wanted) }
    ensures valid { IfSome result IsInRange }
    ensures none { IfNone result ((a c : ℕ) (w : Word) → IsInRange (Wanted.Word a c w) → address.now ∷ cycle.now ∷ word.now ∷ [] ≢ words_of (Wanted.Word a c w)) }
{
    let address = address_of(address)?;
    let cycle = cycles_of(cycle)?;
    let word = Word::parse(word)?;
    Some(Wanted::Word {
        address,
        cycle,
        word,
    })
}

// Equal senses of two aircraft.
fn equal_of(one: &str, other: &str, cycles: &str) -> Option<Wanted>
    ensures some { IfSome result (λ wanted. one.now ∷ other.now ∷ cycles.now ∷ [] ≡ words_of wanted) }
    ensures valid { IfSome result IsInRange }
    ensures none { IfNone result ((a b c : ℕ) → IsInRange (Wanted.Equal a b c) → one.now ∷ other.now ∷ cycles.now ∷ [] ≢ words_of (Wanted.Equal a b c)) }
{
    let one = address_of(one)?;
    let other = address_of(other)?;
    let cycles = cycles_of(cycles)?;
    if one == other {
        return None;
    }
    Some(Wanted::Equal { one, other, cycles })
}

/// What three words want: an address, a cycle and a word of the report; or two different addresses, and a number of
/// cycles. None where they say neither.
pub fn of_three(first: &str, second: &str, third: &str) -> Option<Wanted>
    ensures some { IfSome result (λ wanted. first.now ∷ second.now ∷ third.now ∷ [] ≡ words_of wanted) }
    ensures valid { IfSome result IsInRange }
    ensures none { IfNone result ((wanted : Wanted) → IsInRange wanted → first.now ∷ second.now ∷ third.now ∷ [] ≢ words_of wanted) }
{
    match word_of(first, second, third) {
        Some(wanted) => Some(wanted),
        None => equal_of(first, second, third),
    }
}
