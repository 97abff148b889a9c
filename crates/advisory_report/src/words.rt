// The words of senses and of complements.
ghost use Rattle.std.specs.Prelude.{◌≡◌, ◌≤◌, length};
ghost use Rattle.advisory_report.specs.Words.{complement_text, sense_text};

use acas_base::{Sense, Vrc};

/// `up` or `down`.
pub fn sense_text(sense: Sense) -> &'static str
    ensures text { result.now ≡ sense_text sense }
    ensures short { length result.now ≤ 4 }
{
    match sense {
        Sense::Up => "up",
        Sense::Down => "down",
    }
}

/// What a complement forbids: `below` for "do not pass below", `above` for "do not pass above". Nothing, where it
/// forbids nothing.
pub fn complement_text(complement: Vrc) -> &'static str
    ensures text { result.now ≡ complement_text complement }
    ensures short { length result.now ≤ 5 }
{
    match complement {
        Vrc::Nil => "",
        Vrc::NotBelow => "below",
        Vrc::NotAbove => "above",
    }
}
