// The fields of one line, taken in turn.
ghost use Rattle.std.specs.Prelude.{◌≡◌, ◌≢◌, ◌∷◌, ◌↔◌, [], List, ℕ, MatchOption, MatchBool, IsTrue};
ghost use Rattle.std.specs.Fmt.{decimal};
ghost use Rattle.acas_text.specs.Decimal.{IsWithin, SpellsWithin};
ghost use Rattle.memchr.specs.Find.{IsFirstByte, is_byte};
ghost use Rattle.rec_audit.specs.Fields.{BeginsShort};

use acas_text::parse_within;
use std::marker::Model;

const COMMA: u8 = b',';

/// The fields of a line that are still to come.
#[derive(Drop)]
pub(crate) struct Fields<'a> {
    rest: Option<&'a [u8]>,
}

impl<'a> Model for Fields<'a> {
    ghost use Rattle.std.specs.Prelude.{List, ℕ};
    ghost use Rattle.rec_audit.specs.Fields.{fields_left};

    ghost Value = { List (List ℕ) };

    ghost view = { λ a. fields_left a.rest };
}

impl<'a> Fields<'a> {
    ghost use Rattle.rec_audit.specs.Fields.{fields_of};

    /// All fields of a line without its line feed.
    pub fn of(line: &'a [u8]) -> Fields<'a>
        ensures { result ≡ fields_of line.now }
    {
        Fields { rest: Some(line) }
    }

    /// The next field.
    pub fn next(&mut self) -> Option<&'a [u8]>
        ensures { MatchOption result ((self.old ≡ []) × (self.new ≡ [])) (λ field. self.old ≡ field.now ∷ self.new) }
    {
        let text = self.rest?;
        match comma_in(text) {
            Some(at) => {
                self.rest = Some(&text[at + 1..]);
                Some(&text[..at])
            }
            None => {
                self.rest = None;
                Some(text)
            }
        }
    }

    /// The next field, where it is a single byte and another field follows. Else no field is taken.
    pub fn letter(&mut self) -> Option<u8>
        ensures { MatchOption result
            ((self.new ≡ self.old) × ((c : ℕ) (next : List ℕ) (rest : List (List ℕ)) → c ≢ 44 → self.old ≢ (c ∷ []) ∷ next ∷ rest))
            (λ c. self.old ≡ (c ∷ []) ∷ self.new) }
    {
        let text = self.rest?;
        if !begins_short(text) {
            return None;
        }
        self.rest = Some(&text[2..]);
        Some(text[0])
    }

    /// Whether no field is left.
    pub fn is_done(&self) -> bool
        ensures { IsTrue result ↔ (self.now ≡ []) }
    {
        self.rest.is_none()
    }

    /// The number that the next field spells, where it lies in a range.
    pub fn number(&mut self, low: u32, high: u32) -> Option<u32>
        ensures { MatchOption result
            ((n : ℕ) (rest : List (List ℕ)) → IsWithin low high n → self.old ≢ decimal n ∷ rest)
            (λ n. IsWithin low high n × (self.old ≡ decimal n ∷ self.new)) }
    {
        // Most numbers in a recording have one digit.
        if let Some(glyph) = self.letter() {
            return digit_within(glyph, low, high);
        }
        parse_within(self.next()?, low, high)
    }
}

// Whether the first field of a text is a single byte, and another one follows.
fn begins_short(text: &[u8]) -> bool
    ensures { MatchBool result (BeginsShort text.now) (BeginsShort text.now → ⊥) }
{
    if text.len() < 2 {
        return false;
    }
    text[0] != COMMA && text[1] == COMMA
}

// The number of a range that one digit spells.
fn digit_within(glyph: u8, low: u32, high: u32) -> Option<u32>
    ensures { SpellsWithin low high (glyph ∷ []) result }
{
    match glyph {
        b'0'..=b'9' => {
            let value = u32::from(glyph - b'0');
            if value < low || high < value {
                return None;
            }
            Some(value)
        }
        _ => None,
    }
}

// Where the first comma stands. A field has few bytes, so they are compared one by one.
fn comma_in(text: &[u8]) -> Option<usize>
    ensures { IsFirstByte (is_byte 44) text.now result }
{
    for (at, glyph) in text.iter().enumerate() {
        if *glyph == COMMA {
            return Some(at);
        }
    }
    None
}
