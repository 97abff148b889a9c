// Composite advisories.
ghost use Rattle.std.specs.Prelude.{◌≡◌, ◌∷◌, [], ◌++◌, ◌||◌, ◌≤◌, length, List, Some, option_copied};
ghost use Rattle.std.specs.List.{list_any};
ghost use Rattle.acas_base.specs.declared.advisory.Cell.{Cell};
ghost use Rattle.advisory_report.specs.Composite.{advice_of, clear, composite_of, down_word, is_traffic, joint, shown, up_word, word_of};

use acas_base::{Cell, Cells, Intent, Sense, Strength};

/// The composite advisory of an aircraft in a cycle: what its cells say together.
#[derive(Clone, Copy)]
pub struct Composite {
    /// Some cell is Traffic.
    pub traffic: bool,
    /// The strongest advice to climb or not to descend, where there is any.
    pub up: Option<Strength>,
    /// The strongest advice to descend or not to climb, where there is any.
    pub down: Option<Strength>,
    /// Own rate has to change.
    pub corrective: bool,
    /// The advice crosses another aircraft's altitude.
    pub crossing: bool,
}

// The advice of one sense: its strongest strength, and whether some advisory of that strength is corrective or
// crossing.
#[derive(Clone, Copy)]
struct Advice {
    strength: Option<Strength>,
    corrective: bool,
    crossing: bool,
}

// The advice where no cell advises.
const NONE: Advice = Advice {
    strength: None,
    corrective: false,
    crossing: false,
};

impl Composite {
    /// The composite of an aircraft before its first cycle: no advice and no traffic.
    pub fn clear() -> Composite
        ensures { result ≡ clear }
    {
        joined(false, NONE, NONE)
    }
}

// The advice that one advisory gives.
fn alone(advisory: &Intent) -> Advice
    ensures { result ≡ record { strength = Some advisory.now.strength; corrective = advisory.now.corrective; crossing = advisory.now.crossing } }
{
    Advice {
        strength: Some(advisory.strength),
        corrective: advisory.corrective,
        crossing: advisory.crossing,
    }
}

// The advice with one more advisory of its sense and strength.
fn with_equal(advice: Advice, advisory: &Intent) -> Advice
    ensures { result ≡ record { strength = advice.strength; corrective = advice.corrective || advisory.now.corrective; crossing = advice.crossing || advisory.now.crossing } }
{
    Advice {
        strength: advice.strength,
        corrective: advice.corrective || advisory.corrective,
        crossing: advice.crossing || advisory.crossing,
    }
}

// The advice of one sense, with one more advisory of that sense.
fn with_advisory(advice: Advice, advisory: &Intent) -> Advice
    ensures { (cells : List Cell) → advice ≡ advice_of advisory.now.sense cells → result ≡ advice_of advisory.now.sense (cells ++ Cell.Ra advisory.now ∷ []) }
{
    let Some(strongest) = advice.strength else {
        return alone(advisory);
    };
    let (one, other) = (strongest.place(), advisory.strength.place());
    if one < other {
        return alone(advisory);
    }
    if other < one {
        return advice;
    }
    with_equal(advice, advisory)
}

// Traffic and the advice of both senses.
fn joined(traffic: bool, up: Advice, down: Advice) -> Composite
    ensures { result ≡ joint traffic up down }
{
    let both = up.strength.is_some() && down.strength.is_some();
    Composite {
        traffic,
        up: up.strength,
        down: down.strength,
        corrective: both || up.corrective || down.corrective,
        crossing: !both && (up.crossing || down.crossing),
    }
}

// Traffic and the advice of both senses, in one pass over the cells.
fn composite_over(cells: &[Cell]) -> Composite
    ensures { result ≡ joint (list_any is_traffic cells.now) (advice_of Sense.Up cells.now) (advice_of Sense.Down cells.now) }
{
    let mut traffic = false;
    let mut up = NONE;
    let mut down = NONE;
    for cell in cells {
        match cell {
            Cell::Clear => {}
            Cell::Traffic => traffic = true,
            Cell::Ra(advisory) => match advisory.sense {
                Sense::Up => up = with_advisory(up, advisory),
                Sense::Down => down = with_advisory(down, advisory),
            },
        }
    }
    joined(traffic, up, down)
}

/// The composite of a cycle's cells (this project's profile).
///
/// `up` and `down` are the strongest strengths of each sense. With advice of one sense, `corrective` and `crossing`
/// hold where they hold for some advisory of its strongest strength. With advice of both senses `corrective` holds and
/// `crossing` doesn't. Without advice neither holds.
#[tactic(auto, unfolding(crate::specs::Composite::composite_of))]
pub fn composite_of(cells: &Cells) -> Composite
    ensures { result ≡ composite_of cells.now }
{
    composite_over(&cells.list)
}

/// What an aircraft shows after a commit with these cells, and before its first one.
pub fn shown(cells: Option<&Cells>) -> Composite
    ensures { result ≡ shown (option_copied cells.entry) }
{
    match cells {
        Some(cells) => composite_of(cells),
        None => Composite::clear(),
    }
}

fn up_word(strength: Strength) -> &'static str
    ensures text { result.now ≡ up_word strength }
    ensures short { length result.now ≤ 13 }
{
    match strength {
        Strength::Limit2000 => "UP-2000",
        Strength::Limit1000 => "UP-1000",
        Strength::Limit500 => "UP-500",
        Strength::Level => "UP-LEVEL",
        Strength::Positive => "UP-CLIMB",
        Strength::Increase => "UP-INCREASE",
    }
}

fn down_word(strength: Strength) -> &'static str
    ensures text { result.now ≡ down_word strength }
    ensures short { length result.now ≤ 13 }
{
    match strength {
        Strength::Limit2000 => "DOWN-2000",
        Strength::Limit1000 => "DOWN-1000",
        Strength::Limit500 => "DOWN-500",
        Strength::Level => "DOWN-LEVEL",
        Strength::Positive => "DOWN-DESCEND",
        Strength::Increase => "DOWN-INCREASE",
    }
}

/// The word of a composite in the report.
pub fn word(composite: &Composite) -> &'static str
    ensures text { result.now ≡ word_of composite.now }
    ensures short { length result.now ≤ 13 }
{
    match (composite.up, composite.down) {
        (Some(up), None) => up_word(up),
        (None, Some(down)) => down_word(down),
        (Some(_), Some(_)) => "LEVEL-BOTH",
        (None, None) => {
            if composite.traffic {
                "TRAFFIC"
            } else {
                "CLEAR"
            }
        }
    }
}
