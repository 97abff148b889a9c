// The lines of outcomes.
ghost use Rattle.std.specs.Prelude.{◌≡◌, ◌+◌, ◌<◌, ◌≤◌, ◌++◌, ◌∷◌, Some, length};
ghost use Rattle.acas_text.specs.declared.line.TheConstants.{LINE_BYTES};
ghost use Rattle.outcomes.specs.Lines.{addresses_text, advised_text, cycle_text, distances_text, heard_text, letter, letter_of, letters, nearest_text, outcome_text, piece_text, times_text, variant_text};

use crate::advised::Senses;
use crate::crews::Heard;
use crate::nearest::Nearest;
use crate::outcome::Outcome;
use acas_base::CRAFTS;
use acas_text::Line;

/// What one of many variants of an encounter comes to: its outcome, and whether its crews see and hear what those of
/// the encounter as it is do.
#[derive(Clone, Copy)]
pub struct Variant {
    pub outcome: Outcome,
    pub heard: Heard,
}

/// The most bytes that `add_outcome` adds.
pub const OUTCOME_BYTES: usize = 160;

/// The most bytes that `add_variant` adds.
pub const VARIANT_BYTES: usize = 163;

fn letter(senses: Senses) -> &'static str
    ensures text { result.now ≡ letter senses }
    ensures short { length result.now ≤ 1 }
{
    match senses {
        Senses::Neither => "-",
        Senses::Up => "U",
        Senses::Down => "D",
        Senses::Both => "B",
    }
}

// Adds the letter of an aircraft, where it is one of the first so many.
fn add_letter(line: &mut Line, crafts: u8, list: &[Senses; CRAFTS], own: u8)
    requires own { own < 16 }
    requires room { length line.old + 1 ≤ LINE_BYTES }
    ensures added { line.new ≡ line.old ++ letter_of crafts list.now own }
    ensures short { length line.new ≤ length line.old + 1 }
{
    if own < crafts {
        line.text(letter(list[usize::from(own)]));
    }
}

// Adds a letter for each aircraft.
#[tactic(auto, unfolding(crate::specs::Lines::letters))]
fn add_letters(line: &mut Line, crafts: u8, list: &[Senses; CRAFTS])
    requires { length line.old + 16 ≤ LINE_BYTES }
    ensures added { line.new ≡ line.old ++ letters crafts list.now }
    ensures short { length line.new ≤ length line.old + 16 }
{
    for own in 0..16u8 {
        add_letter(line, crafts, list, own);
    }
}

fn add_cycle(line: &mut Line, cycle: Option<u16>)
    requires { length line.old + 5 ≤ LINE_BYTES }
    ensures added { line.new ≡ line.old ++ cycle_text cycle }
    ensures short { length line.new ≤ length line.old + 5 }
{
    match cycle {
        Some(cycle) => line.u16(cycle),
        None => line.text("-"),
    }
}

// Adds the addresses of two aircraft that come nearest.
fn add_addresses(line: &mut Line, it: &Nearest)
    requires { length line.old + 13 ≤ LINE_BYTES }
    ensures added { line.new ≡ line.old ++ addresses_text it.now }
    ensures short { length line.new ≤ length line.old + 13 }
{
    line.address(it.one.value());
    line.text(",");
    line.address(it.other.value());
}

// Adds when and how near they come.
fn add_distances(line: &mut Line, it: &Nearest)
    requires { length line.old + 39 ≤ LINE_BYTES }
    ensures added { line.new ≡ line.old ++ distances_text it.now }
    ensures short { length line.new ≤ length line.old + 39 }
{
    line.u16_field(it.cycle);
    line.u32_field(it.slant);
    line.u32_field(it.planned);
    line.u32_field(it.flown);
}

fn add_two(line: &mut Line, it: &Nearest)
    requires { length line.old + 60 ≤ LINE_BYTES }
    ensures added { line.new ≡ line.old ++ addresses_text it.now ++ distances_text it.now }
    ensures short { length line.new ≤ length line.old + 60 }
{
    add_addresses(line, it);
    add_distances(line, it);
}

fn add_nearest(line: &mut Line, nearest: &Option<Nearest>)
    requires { length line.old + 60 ≤ LINE_BYTES }
    ensures added { line.new ≡ line.old ++ nearest_text nearest.now }
    ensures short { length line.new ≤ length line.old + 60 }
{
    match nearest {
        Some(it) => add_two(line, it),
        None => line.text("-,-,-,-,-,-"),
    }
}

// Adds the first cycle with an advisory, and the letters.
fn add_advised(line: &mut Line, it: &Outcome)
    requires { length line.old + 50 ≤ LINE_BYTES }
    ensures added { line.new ≡ line.old ++ advised_text it.now }
    ensures short { length line.new ≤ length line.old + 50 }
{
    add_cycle(line, it.first);
    line.text(",");
    add_letters(line, it.crafts, &it.began);
    line.text(",");
    add_letters(line, it.crafts, &it.ended);
}

// Adds how often senses changed and were equal.
fn add_times(line: &mut Line, it: &Outcome)
    requires { length line.old + 33 ≤ LINE_BYTES }
    ensures added { line.new ≡ line.old ++ times_text it.now }
    ensures short { length line.new ≤ length line.old + 33 }
{
    line.u32_field(it.turns);
    line.u32_field(it.reversals);
    line.u32_field(it.equal);
}

/// Adds the fields of an outcome, with a comma before each:
/// `,FIRST,BEGAN,ENDED,TURNS,REVERSALS,EQUAL,ONE,OTHER,CYCLE,SLANT,PLANNED,FLOWN`.
pub fn add_outcome(line: &mut Line, it: &Outcome)
    requires { length line.old + OUTCOME_BYTES ≤ LINE_BYTES }
    ensures added { line.new ≡ line.old ++ outcome_text it.now }
    ensures short { length line.new ≤ length line.old + OUTCOME_BYTES }
{
    line.text(",");
    add_advised(line, it);
    add_times(line, it);
    line.text(",");
    add_nearest(line, &it.nearest);
}

fn heard_text(heard: Heard) -> &'static str
    ensures text { result.now ≡ heard_text heard }
    ensures short { length result.now ≤ 1 }
{
    match heard {
        Heard::Same => "1",
        Heard::Other => "0",
    }
}

/// Ends the line of a variant: its outcome and SAME, or `none` where there is none within the limits.
pub fn add_variant(line: &mut Line, variant: &Option<Variant>)
    requires { length line.old + VARIANT_BYTES ≤ LINE_BYTES }
    ensures added { line.new ≡ line.old ++ variant_text variant.now }
    ensures short { length line.new ≤ length line.old + VARIANT_BYTES }
{
    match variant {
        Some(it) => {
            add_outcome(line, &it.outcome);
            line.text(",");
            line.text(heard_text(it.heard));
            line.text("\n");
        }
        None => line.text(",none\n"),
    }
}

/// Ends the line of an encounter that is told by itself.
pub fn add_piece(line: &mut Line, it: &Outcome)
    requires { length line.old + VARIANT_BYTES ≤ LINE_BYTES }
    ensures added { line.new ≡ line.old ++ piece_text it.now }
    ensures short { length line.new ≤ length line.old + VARIANT_BYTES }
{
    add_outcome(line, it);
    line.text("\n");
}
