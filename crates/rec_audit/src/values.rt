// What single fields spell.
ghost use Rattle.std.specs.Prelude.{◌≡◌, ◌≢◌, ◌∷◌, ◌++◌, [], Bool, List, ℕ, MatchOption, MatchBool};
ghost use Rattle.acas_base.specs.declared.advisory.Cell.{Cell};
ghost use Rattle.acas_base.specs.declared.advisory.Intent.{Intent};
ghost use Rattle.acas_base.specs.declared.advisory.Sense.{Sense};
ghost use Rattle.acas_base.specs.declared.advisory.Strength.{Strength};
ghost use Rattle.acas_text.specs.Decimal.{IsWithin};
ghost use Rattle.advisory_report.specs.Cells.{age_text, cell_text, flag, sense_letter, strength_digit};
ghost use Rattle.air_journal.specs.Ranges.{IsCell};
ghost use Rattle.rec_text.specs.Entries.{outcome};

use acas_base::{Cell, Intent, Sense, Strength};
use acas_text::parse_within;

fn sense_of(letter: u8) -> Option<Sense>
    ensures { MatchOption result ((sense : Sense) → sense_letter sense ≢ letter ∷ []) (λ sense. letter ∷ [] ≡ sense_letter sense) }
{
    match letter {
        b'U' => Some(Sense::Up),
        b'D' => Some(Sense::Down),
        _ => None,
    }
}

fn strength_of(digit: u8) -> Option<Strength>
    ensures { MatchOption result ((strength : Strength) → strength_digit strength ≢ digit ∷ []) (λ strength. digit ∷ [] ≡ strength_digit strength) }
{
    match digit {
        b'1' => Some(Strength::Limit2000),
        b'2' => Some(Strength::Limit1000),
        b'3' => Some(Strength::Limit500),
        b'4' => Some(Strength::Level),
        b'5' => Some(Strength::Positive),
        b'6' => Some(Strength::Increase),
        _ => None,
    }
}

/// Whether a copy was taken good, as its letter says.
pub(crate) fn outcome_of(text: &[u8]) -> Option<bool>
    ensures { MatchOption result ((good : Bool) → outcome good ≢ text.now) (λ good. text.now ≡ outcome good) }
{
    match text {
        b"g" => Some(true),
        b"b" => Some(false),
        _ => None,
    }
}

/// What stands before a letter at the end of a text, and whether the letter is there.
pub(crate) fn before_flag(text: &[u8], letter: u8) -> (&[u8], bool)
    ensures whole { text.now ≡ result.0.now ++ flag result.1 (letter ∷ []) }
    ensures none { MatchBool result.1 (Unit {0}) ((front : List ℕ) → text.now ≢ front ++ letter ∷ []) }
{
    match text {
        [front @ .., last] if *last == letter => (front, true),
        _ => (text, false),
    }
}

// The advisory of this sense and strength. A text spells its age and letters.
fn advisory_of(sense: Sense, strength: Strength, text: &[u8]) -> Option<Intent>
    ensures { MatchOption result
        ((it : Intent) → IsWithin 1 600 it.age → age_text it ≢ text.now)
        (λ it. (it.sense ≡ sense) × (it.strength ≡ strength) × IsWithin 1 600 it.age × (text.now ≡ age_text it)) }
{
    let (text, turned) = before_flag(text, b'r');
    let (text, crossing) = before_flag(text, b'x');
    let (text, corrective) = before_flag(text, b'c');
    let age = parse_within(text, 1, 600)?;
    Some(Intent {
        sense,
        strength,
        age: age as u16,
        turned,
        crossing,
        corrective,
    })
}

/// The cell that a text spells.
pub(crate) fn cell_of(text: &[u8]) -> Option<Cell>
    ensures { MatchOption result
        ((cell : Cell) → IsCell cell → cell_text cell ≢ text.now)
        (λ cell. IsCell cell × (text.now ≡ cell_text cell)) }
{
    match text {
        b"-" => Some(Cell::Clear),
        b"t" => Some(Cell::Traffic),
        [letter, digit, b'.', rest @ ..] => {
            let sense = sense_of(*letter)?;
            let strength = strength_of(*digit)?;
            let advisory = advisory_of(sense, strength, rest)?;
            Some(Cell::Ra(advisory))
        }
        _ => None,
    }
}
