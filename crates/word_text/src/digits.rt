// The digits of a word.
ghost use Rattle.std.specs.Prelude.{◌≡◌, ◌↔◌, ℕ, IfNone, IfSome, IsSome};
ghost use Rattle.std.specs.Str.Parse.{digits_value};
ghost use Rattle.word_text.specs.Digits.{AreDigits, Spells};

use acas_text::parse_hex;

// How many digits a word has.
const WORD_DIGITS: usize = 14;

/// The word that fourteen digits 0-9A-F spell, the highest first. None comes exactly where the text is anything else.
pub fn parse(text: &[u8]) -> Option<u64>
    ensures digits { IsSome result ↔ AreDigits text.now }
    ensures value { IfSome result (λ word. word ≡ digits_value 16 text.now) }
    ensures some { IfSome result (λ word. Spells text.now word) }
    ensures none { IfNone result ((word : ℕ) → Spells text.now word → ⊥) }
{
    parse_hex(text, WORD_DIGITS)
}
