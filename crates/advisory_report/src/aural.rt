// What the crew hears.
ghost use Rattle.std.specs.Prelude.{◌≡◌, ◌≤◌, length, Some, false};
ghost use Rattle.advisory_report.specs.Phrases.{aural_in, aural_of, for_sense, has_advice, is_kept, phrase_text, strength_in};

use crate::Composite;
use acas_base::{Sense, Strength};

/// What is said to the crew (the words: FAA, Introduction to TCAS II v7.1; when each phrase comes: this project's
/// profile).
#[derive(Clone, Copy)]
pub enum Aural {
    /// `Traffic traffic`
    TrafficTraffic,
    /// `Climb climb`
    ClimbClimb,
    /// `Descend descend`
    DescendDescend,
    /// `Climb crossing climb`
    ClimbCrossing,
    /// `Descend crossing descend`
    DescendCrossing,
    /// `Increase climb`
    IncreaseClimb,
    /// `Increase descent`
    IncreaseDescent,
    /// `Climb climb NOW`, after advice of the other sense
    ClimbNow,
    /// `Descend descend NOW`, after advice of the other sense
    DescendNow,
    /// `Maintain vertical speed maintain`
    Maintain,
    /// `Level off level off`
    LevelOff,
    /// `Monitor vertical speed`
    Monitor,
    /// `Clear of conflict`
    ClearOfConflict,
    /// Nothing is said.
    Silent,
}

/// Whether there is advice, up or down.
pub fn has_advice(composite: &Composite) -> bool
    ensures { result ≡ has_advice composite.now }
{
    composite.up.is_some() || composite.down.is_some()
}

// The strengths of both senses stay, and the advice isn't newly corrective.
fn is_kept(before: &Composite, after: &Composite) -> bool
    ensures { result ≡ is_kept before.now after.now }
{
    before.up == after.up && before.down == after.down && (before.corrective || !after.corrective)
}

fn strength_in(sense: Sense, composite: &Composite) -> Option<Strength>
    ensures { result ≡ strength_in sense composite.now }
{
    match sense {
        Sense::Up => composite.up,
        Sense::Down => composite.down,
    }
}

fn for_sense(sense: Sense, climb: Aural, descend: Aural) -> Aural
    ensures { result ≡ for_sense sense climb descend }
{
    match sense {
        Sense::Up => climb,
        Sense::Down => descend,
    }
}

// The phrase for advice of 1500 ft/min that isn't kept.
fn positive(sense: Sense, before: &Composite, after: &Composite) -> Aural
    requires { strength_in sense after.now ≡ Some Strength.Positive }
    ensures { result ≡ aural_in sense before.now after.now }
{
    if strength_in(sense.other(), before).is_some() && strength_in(sense, before).is_none() {
        return for_sense(sense, Aural::ClimbNow, Aural::DescendNow);
    }
    if !after.corrective {
        return Aural::Maintain;
    }
    if after.crossing {
        return for_sense(sense, Aural::ClimbCrossing, Aural::DescendCrossing);
    }
    for_sense(sense, Aural::ClimbClimb, Aural::DescendDescend)
}

// The phrase for advice of Level that isn't kept.
fn level(sense: Sense, before: &Composite, after: &Composite) -> Aural
    requires { strength_in sense after.now ≡ Some Strength.Level }
    ensures { result ≡ aural_in sense before.now after.now }
{
    if after.corrective {
        return Aural::LevelOff;
    }
    match strength_in(sense, before) {
        Some(Strength::Positive | Strength::Increase) => Aural::LevelOff,
        _ => Aural::Monitor,
    }
}

// The phrase for advice of one sense that isn't kept.
fn aural_in(sense: Sense, strength: Strength, before: &Composite, after: &Composite) -> Aural
    requires { strength_in sense after.now ≡ Some strength }
    ensures { result ≡ aural_in sense before.now after.now }
{
    match strength {
        Strength::Limit2000 | Strength::Limit1000 | Strength::Limit500 => Aural::Monitor,
        Strength::Level => level(sense, before, after),
        Strength::Positive => positive(sense, before, after),
        Strength::Increase => for_sense(sense, Aural::IncreaseClimb, Aural::IncreaseDescent),
    }
}

// The phrase where there is no advice now.
fn without_advice(before: &Composite, after: &Composite) -> Aural
    requires { has_advice after.now ≡ false }
    ensures { result ≡ aural_of before.now after.now }
{
    if has_advice(before) {
        return Aural::ClearOfConflict;
    }
    if after.traffic && !before.traffic {
        return Aural::TrafficTraffic;
    }
    Aural::Silent
}

/// What is said from one composite to the next (this project's profile).
pub fn aural_of(before: &Composite, after: &Composite) -> Aural
    ensures { result ≡ aural_of before.now after.now }
{
    if !has_advice(after) {
        return without_advice(before, after);
    }
    if is_kept(before, after) {
        return Aural::Silent;
    }
    match (after.up, after.down) {
        (Some(up), None) => aural_in(Sense::Up, up, before, after),
        (None, Some(down)) => aural_in(Sense::Down, down, before, after),
        _ => Aural::LevelOff,
    }
}

/// How it is written in the report; `-` where nothing is said.
pub fn phrase(aural: Aural) -> &'static str
    ensures text { result.now ≡ phrase_text aural }
    ensures short { length result.now ≤ 32 }
{
    match aural {
        Aural::TrafficTraffic => "Traffic traffic",
        Aural::ClimbClimb => "Climb climb",
        Aural::DescendDescend => "Descend descend",
        Aural::ClimbCrossing => "Climb crossing climb",
        Aural::DescendCrossing => "Descend crossing descend",
        Aural::IncreaseClimb => "Increase climb",
        Aural::IncreaseDescent => "Increase descent",
        Aural::ClimbNow => "Climb climb NOW",
        Aural::DescendNow => "Descend descend NOW",
        Aural::Maintain => "Maintain vertical speed maintain",
        Aural::LevelOff => "Level off level off",
        Aural::Monitor => "Monitor vertical speed",
        Aural::ClearOfConflict => "Clear of conflict",
        Aural::Silent => "-",
    }
}
