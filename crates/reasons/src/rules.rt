// By which rule a cell followed.
ghost use Rattle.std.specs.Prelude.{◌≡◌};
ghost use Rattle.reasons.specs.Rules.{advisory_rule, rule_of, starting_rule, strength_rule, told_rule, turning_rule};

use acas_base::{Cell, Intent, Rank, View, Vrc};
use coord_core::{changes_sense, ends};
use strength_pick::{next_strength, weakens};

/// The case of the rules that gave a cell.
#[derive(Clone, Copy, Debug, PartialEq, Eq)]
pub enum Rule {
    /// The pair isn't tested.
    Untested,
    /// An advisory starts, in the sense that was chosen.
    Starts,
    /// An advisory starts, in the sense that the complement in force doesn't forbid.
    StartsAsTold,
    /// No advisory starts, and there is traffic.
    Traffic,
    /// No advisory starts, and there is no traffic.
    Quiet,
    /// The advisory ends: own aircraft doesn't resolve any more.
    EndsBelowLevel,
    /// The advisory ends: it is at least five cycles old, and there is no threat. In profile 2 the range test doesn't
    /// hold.
    EndsWithoutThreat,
    /// The advisory changes its sense as the complement in force asks.
    Obeys,
    /// The advisory changes its sense by a geometric reversal. In profile 2 it does so in a vertical chase too.
    Reverses,
    /// The advisory grows stronger.
    Strengthens,
    /// The advisory keeps its strength.
    Keeps,
    /// The advisory weakens to Level: it is at least five cycles old, and its sense has ALIM already. In profile 2 it is
    /// at least ten cycles old, and Level with the later response gives ALIM too, or the other aircraft passes far away.
    Weakens,
    /// The advisory grows weaker: its strength isn't allowed any more.
    Capped,
}

// An advisory starts.
fn told_rule(complement: Vrc) -> Rule
    ensures { result ≡ told_rule complement }
{
    match complement {
        Vrc::Nil => Rule::Starts,
        Vrc::NotBelow | Vrc::NotAbove => Rule::StartsAsTold,
    }
}

// There was no advisory.
fn starting_rule(view: &View, complement: Vrc) -> Rule
    ensures { result ≡ starting_rule view.now complement }
{
    if view.threat {
        told_rule(complement)
    } else if view.traffic {
        Rule::Traffic
    } else {
        Rule::Quiet
    }
}

// The sense changes.
fn turning_rule(rank: Rank) -> Rule
    ensures { result ≡ turning_rule rank }
{
    match rank {
        Rank::Second => Rule::Obeys,
        Rank::First | Rank::Free => Rule::Reverses,
    }
}

// The sense stays.
fn strength_rule(before: &Intent, view: &View) -> Rule
    ensures { result ≡ strength_rule before.now view.now }
{
    let was = before.strength.place();
    let is = next_strength(before, view).place();
    if was < is {
        Rule::Strengthens
    } else if was == is {
        Rule::Keeps
    } else if weakens(before, view) {
        Rule::Weakens
    } else {
        Rule::Capped
    }
}

// There was an advisory.
fn advisory_rule(before: &Intent, view: &View, complement: Vrc, rank: Rank) -> Rule
    ensures { result ≡ advisory_rule before.now view.now complement rank }
{
    if !view.resolves {
        Rule::EndsBelowLevel
    } else if ends(before, view) {
        Rule::EndsWithoutThreat
    } else if changes_sense(before, view, complement, rank) {
        turning_rule(rank)
    } else {
        strength_rule(before, view)
    }
}

/// The case of the rules that gives the next cell (FAA, Introduction to TCAS II v7.1; ICAO Annex 10 vol. IV, 4.3; with
/// the details of this project's profile): the first one that applies, from the cell before, the present view, the
/// complement in force and the rank.
pub fn rule_of(before: &Cell, view: &View, complement: Vrc, rank: Rank) -> Rule
    ensures { result ≡ rule_of before.now view.now complement rank }
{
    if !view.tested {
        return Rule::Untested;
    }
    match before {
        Cell::Clear | Cell::Traffic => starting_rule(view, complement),
        Cell::Ra(before) => advisory_rule(before, view, complement, rank),
    }
}
