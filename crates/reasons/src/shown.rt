// What a line tells of what own aircraft saw.
ghost use Rattle.std.specs.Prelude.{◌≡◌, ◌≤◌, ◌^◌, ◌-ℤ◌, IfSome, None, Some, if◌then◌else◌, option_map, unsigned_abs};
ghost use Rattle.acas_base.specs.Choice.{separation_of};
ghost use Rattle.craft_view.specs.KnownTracks.{IsMotion};
ghost use Rattle.craft_view.specs.Own.{AreRows};
ghost use Rattle.reasons.specs.Bounds.{IsModerate, IsSeen};
ghost use Rattle.reasons.specs.Fields.{tenths_of};
ghost use Rattle.reasons.specs.Shown.{best_of, continued_after, continued_of, is_projected, projected_of, shown_of, tested_of};
ghost use Rattle.test_seconds.specs.Pair.{pair_seconds};

use crate::seen::Seen;
use crate::tenths::{tenths_a_minute_of, tenths_of};
use acas_base::{Cell, Choice, Intent, Rank, Sense, Strength, View, separation, strongest};
use craft_view::{Motion, OwnAircraft};
use flight::Meas;
use sense_pick::pick;
use strength_pick::{choice_after, has_alim, least};
use test_seconds::{TestSeconds, height_of, height_rate_of, pair_seconds};

/// What own aircraft saw of a pair that is tested: what is tracked, and what the tests gave.
#[derive(Clone, Copy)]
pub struct Tested {
    /// The range's estimate, in tenths of a foot.
    pub range: i32,
    /// Its rate, in tenths of ft/s.
    pub range_rate: i32,
    /// The other's altitude estimate less own, in tenths of a foot.
    pub height: i32,
    /// The other's altitude rate less own, in tenths of ft/min.
    pub height_rate: i32,
    /// Own altitude rate, in tenths of ft/min.
    pub own_rate: i32,
    /// What a traffic advisory needs.
    pub ta: TestSeconds,
    /// What a resolution advisory needs, where own aircraft resolves.
    pub ra: Option<TestSeconds>,
    /// There is traffic.
    pub traffic: bool,
    /// There is a threat.
    pub threat: bool,
}

/// The strongest allowed strength of a fresh choice in a sense, and its separation with the first response, in tenths
/// of a foot.
#[derive(Clone, Copy)]
pub struct Best {
    pub strength: Strength,
    pub separation: i32,
}

/// What the senses would give, where the pair is tested and own aircraft resolves.
#[derive(Clone, Copy)]
pub struct Projected {
    /// Half-seconds to closest approach.
    pub halves: u16,
    /// ALIM, in ft.
    pub alim: u16,
    /// The sense that doesn't cross.
    pub side: Sense,
    pub up: Best,
    pub down: Best,
    /// The sense that a new choice has.
    pub chosen: Sense,
}

/// What an advisory may go on with, where the pair is tested and own aircraft resolves. Separations are in tenths of a
/// foot.
#[derive(Clone, Copy)]
pub struct Continued {
    /// A choice that keeps the sense is fresh.
    pub fresh: bool,
    /// The least strength of that choice.
    pub need: Strength,
    /// Its separation.
    pub separation: i32,
    /// The separation of the strongest strength in the same sense, with the later response.
    pub same_later: i32,
    /// That of the strongest strength of a fresh choice in the other sense, with the later response.
    pub other_later: i32,
    /// The same sense has ALIM already.
    pub has_alim: bool,
}

/// What a line tells of what own aircraft saw of another one.
#[derive(Clone, Copy)]
pub struct Shown {
    /// The rank against the other aircraft.
    pub rank: Rank,
    /// What was measured of it in this cycle.
    pub reply: Option<Meas>,
    /// Own altitude, in ft.
    pub altitude: i32,
    /// Own height above ground, in ft.
    pub height: i32,
    /// Own sensitivity level.
    pub level: u8,
    /// Own aircraft may climb.
    pub climbs: bool,
    pub tested: Option<Tested>,
    pub projected: Option<Projected>,
}

// What is tracked, and what the tests gave.
#[tactic(auto, unfolding(crate::specs::Shown::tested_of))]
fn tested_of(own: &OwnAircraft, view: &View, motion: &Motion) -> Tested
    requires rows { AreRows own.now }
    requires motion { IsMotion motion.now }
    ensures { result ≡ tested_of own.now view.now motion.now }
{
    let seconds = pair_seconds(own, motion);
    Tested {
        range: tenths_of(motion.range.est),
        range_rate: tenths_of(motion.range.rate),
        height: tenths_of(height_of(motion)),
        height_rate: tenths_a_minute_of(height_rate_of(motion)),
        own_rate: tenths_a_minute_of(motion.own.rate),
        ta: seconds.ta,
        ra: seconds.ra,
        traffic: view.traffic,
        threat: view.threat,
    }
}

// The same, where the pair is tested.
fn tested_if_any(own: &OwnAircraft, view: &View, motion: &Option<Motion>) -> Option<Tested>
    requires rows { AreRows own.now }
    requires motion { IfSome motion.now IsMotion }
    ensures { result ≡ option_map (tested_of own.now view.now) motion.now }
{
    match motion {
        None => None,
        Some(motion) => Some(tested_of(own, view, motion)),
    }
}

// What a strength gives, in tenths of a foot.
fn separation_in_tenths(view: &View, sense: Sense, strength: Strength, choice: Choice) -> i32
    requires { IsModerate view.now }
    ensures { result ≡ tenths_of (separation_of view.now sense strength choice) }
{
    tenths_of(separation(view, sense, strength, choice))
}

// The strongest allowed strength of a fresh choice, and what it gives.
#[tactic(auto, unfolding(crate::specs::Shown::best_of))]
fn best_of(view: &View, sense: Sense) -> Best
    requires { IsModerate view.now }
    ensures { result ≡ best_of view.now sense }
{
    let strength = strongest(view, sense, Choice::Fresh);
    Best {
        strength,
        separation: separation_in_tenths(view, sense, strength, Choice::Fresh),
    }
}

// What the senses would give.
#[tactic(auto, unfolding(crate::specs::Shown::projected_of))]
fn projected_of(view: &View) -> Projected
    requires { IsModerate view.now }
    ensures { result ≡ projected_of view.now }
{
    Projected {
        halves: view.halves,
        alim: (view.alim.unsigned_abs() / 1_024) as u16,
        side: view.side,
        up: best_of(view, Sense::Up),
        down: best_of(view, Sense::Down),
        chosen: pick(view),
    }
}

// The same, where the pair is tested and own aircraft resolves.
fn projected_if_any(view: &View) -> Option<Projected>
    requires { IsModerate view.now }
    ensures { result ≡ (if is_projected view.now then Some (projected_of view.now) else None) }
{
    if view.tested && view.resolves {
        Some(projected_of(view))
    } else {
        None
    }
}

// What an advisory may go on with.
#[tactic(auto, unfolding(crate::specs::Shown::continued_of))]
fn continued_of(view: &View, before: &Intent) -> Continued
    requires { IsModerate view.now }
    ensures { result ≡ continued_of view.now before.now }
{
    let choice = choice_after(before, view);
    let same = before.sense;
    let other = same.other();
    let need = least(view, same, choice);
    let kept = strongest(view, same, Choice::Urgent);
    let turned = strongest(view, other, Choice::Fresh);
    Continued {
        fresh: choice.is_fresh(),
        need,
        separation: separation_in_tenths(view, same, need, choice),
        same_later: separation_in_tenths(view, same, kept, Choice::Urgent),
        other_later: separation_in_tenths(view, other, turned, Choice::Steady),
        has_alim: has_alim(view, same),
    }
}

/// What an advisory may go on with, where there was one, the pair is tested and own aircraft resolves.
pub(crate) fn continued_after(view: &View, before: &Cell) -> Option<Continued>
    requires { IsModerate view.now }
    ensures { result ≡ continued_after view.now before.now }
{
    match before {
        Cell::Clear | Cell::Traffic => None,
        Cell::Ra(before) => {
            if view.tested && view.resolves {
                Some(continued_of(view, before))
            } else {
                None
            }
        }
    }
}

/// What a line tells of what own aircraft saw.
#[tactic(auto, unfolding(crate::specs::Shown::shown_of))]
pub(crate) fn shown_of(seen: &Seen) -> Shown
    requires { IsSeen seen.now }
    ensures { result ≡ shown_of seen.now }
{
    let own = &seen.own;
    Shown {
        rank: seen.rank,
        reply: seen.reply,
        altitude: own.altitude,
        height: own.aircraft.height,
        level: own.level,
        climbs: own.aircraft.climbs,
        tested: tested_if_any(&own.aircraft, &seen.view, &seen.motion),
        projected: projected_if_any(&seen.view),
    }
}
