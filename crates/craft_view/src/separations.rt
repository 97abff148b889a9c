// The vertical separations at closest approach.
ghost use Rattle.std.specs.Prelude.{◌≡◌, ◌≤◌, ◌^◌, pos, ◌+ℤ◌, ◌-ℤ◌, ◌*ℤ◌, unsigned_abs, map};
ghost use Rattle.std.specs.Int.{int_div_euclid};
ghost use Rattle.acas_base.specs.Strengths.{weakest_first};
ghost use Rattle.craft_view.specs.Separations.{apart, asked_rate, floor_rate, halves_to, is_limit, judged_rate, kept_after, own_after, separation, separations, IsApproach, IsResponse};
ghost use Rattle.craft_view.specs.KnownTracks.{IsAltitudeEstimate, IsMotion, IsRangeEstimate};
ghost use Rattle.sens_table.specs.Levels.{IsTableRow};

use crate::motion::{Estimate, Motion, difference};
use acas_base::{Profile, Row, Sense, Seps, Strength};
use project::project;

/// How an aircraft responds to an advisory (this project's profile): in the first `delay` half-seconds its
/// vertical rate stays, and in each later one it moves by at most `step`, in 1/1024 ft/s.
#[derive(Clone, Copy)]
pub struct Response {
    pub delay: u8,
    pub step: i64,
}

/// The response to an advisory that starts: after 5 s by 8 ft/s2.
pub const FIRST_RESPONSE: Response = Response {
    delay: 10,
    step: 4_096,
};

/// The response to an advisory that changes: after 2.5 s by 11 ft/s2.
pub const LATER_RESPONSE: Response = Response {
    delay: 5,
    step: 5_632,
};

// The half-seconds to closest approach.
#[tactic(auto, unfolding(crate::specs::Separations::halves_to))]
pub(crate) fn halves_to(range: &Estimate, row: &Row) -> u16
    requires range { IsRangeEstimate range.now }
    requires row { IsTableRow row.now }
    ensures value { result ≡ halves_to range.now row.now }
    ensures bound { result ≤ 120 }
{
    if range.rate >= 0 {
        return 0;
    }
    let most = 2 * row.tau.unsigned_abs();
    let halves = 2 * range.est.unsigned_abs() / range.rate.unsigned_abs();
    most.min(halves) as u16
}

// Where the two are at closest approach if both keep their rates, after so many half-seconds.
#[derive(Clone, Copy)]
pub struct Approach {
    pub halves: u16,
    pub own: i64,
    pub target: i64,
}

// The closest approach, after so many half-seconds.
pub(crate) fn approach_at(motion: &Motion, halves: u16) -> Approach
    requires motion { IsMotion motion.now }
    requires halves { halves ≤ 120 }
    ensures halves { result.halves ≡ halves }
    ensures approach { IsApproach motion.now result }
{
    Approach {
        halves,
        own: kept_after(&motion.own, halves),
        target: kept_after(&motion.target, halves),
    }
}

// The separations of all strengths.
//
// With its response, its sense and its strength known where it is compiled, a separation takes half the instructions.
// Without this and the attribute of `in_sense`, serial runs of 16 and of 8 aircraft of kind RA take 12.6 and 6.6 per
// cent more.
#[inline(always)]
#[tactic(auto, unfolding(crate::specs::Separations::separations))]
pub(crate) fn separations(
    profile: Profile,
    motion: &Motion,
    approach: &Approach,
    response: Response,
) -> Seps
    requires motion { IsMotion motion.now }
    requires approach { IsApproach motion.now approach.now }
    requires response { IsResponse response }
    ensures { result ≡ separations profile motion.now approach.now.halves response }
{
    Seps {
        up: in_sense(profile, motion, approach, response, Sense::Up),
        down: in_sense(profile, motion, approach, response, Sense::Down),
    }
}

// The separations of all strengths in a sense, weakest first.
#[inline(always)]
fn in_sense(
    profile: Profile,
    motion: &Motion,
    approach: &Approach,
    response: Response,
    sense: Sense,
) -> [i64; 6]
    requires motion { IsMotion motion.now }
    requires approach { IsApproach motion.now approach.now }
    requires response { IsResponse response }
    ensures { result ≡ map (separation profile motion.now approach.now.halves response sense) weakest_first }
{
    let kept = apart(sense, approach.own, approach.target);
    if approach.halves <= u16::from(response.delay) {
        // There is no time to respond.
        return [kept; 6];
    }
    let rate = motion.own.rate;
    if profile == Profile::One && asked_rate(sense, Strength::Level, rate) == rate {
        // Own aircraft does already what Level asks for, and so what each weaker strength does.
        let positive = separation(
            profile,
            motion,
            approach,
            response,
            sense,
            Strength::Positive,
        );
        let increase = separation(
            profile,
            motion,
            approach,
            response,
            sense,
            Strength::Increase,
        );
        return [kept, kept, kept, kept, positive, increase];
    }
    [
        separation(
            profile,
            motion,
            approach,
            response,
            sense,
            Strength::Limit2000,
        ),
        separation(
            profile,
            motion,
            approach,
            response,
            sense,
            Strength::Limit1000,
        ),
        separation(
            profile,
            motion,
            approach,
            response,
            sense,
            Strength::Limit500,
        ),
        separation(profile, motion, approach, response, sense, Strength::Level),
        separation(
            profile,
            motion,
            approach,
            response,
            sense,
            Strength::Positive,
        ),
        separation(
            profile,
            motion,
            approach,
            response,
            sense,
            Strength::Increase,
        ),
    ]
}

// How far a sense and a strength separate the two.
#[tactic(auto, unfolding(crate::specs::Separations::separation))]
pub(crate) fn separation(
    profile: Profile,
    motion: &Motion,
    approach: &Approach,
    response: Response,
    sense: Sense,
    strength: Strength,
) -> i64
    requires motion { IsMotion motion.now }
    requires approach { IsApproach motion.now approach.now }
    requires response { IsResponse response }
    ensures { result ≡ separation profile motion.now approach.now.halves response sense strength }
{
    let own = own_after(profile, motion, approach, response, sense, strength);
    apart(sense, own, approach.target)
}

// How far a sense has two altitudes apart.
#[tactic(auto, unfolding(crate::specs::Separations::apart))]
pub(crate) fn apart(sense: Sense, own: i64, target: i64) -> i64
    requires own { unsigned_abs own ≤ 2 ^ 41 }
    requires target { unsigned_abs target ≤ 2 ^ 41 }
    ensures { result ≡ apart sense own target }
{
    match sense {
        Sense::Up => difference(own, target),
        Sense::Down => difference(target, own),
    }
}

#[tactic(auto, unfolding(crate::specs::Separations::own_after))]
fn own_after(
    profile: Profile,
    motion: &Motion,
    approach: &Approach,
    response: Response,
    sense: Sense,
    strength: Strength,
) -> i64
    requires motion { IsMotion motion.now }
    requires approach { IsApproach motion.now approach.now }
    requires response { IsResponse response }
    ensures value { result ≡ own_after profile motion.now.own approach.now.halves response sense strength }
    ensures bound { unsigned_abs result ≤ 2 ^ 41 }
{
    let Estimate { est, rate } = motion.own;
    let goal = judged_rate(profile, sense, strength, rate);
    if goal == rate {
        // Own aircraft does already what is asked for.
        return approach.own;
    }
    project(
        est,
        rate,
        goal,
        response.delay,
        response.step,
        approach.halves,
    )
}

// An altitude after so many half-seconds at its rate.
#[tactic(auto, unfolding(crate::specs::Separations::kept_after))]
fn kept_after(altitude: &Estimate, halves: u16) -> i64
    requires altitude { IsAltitudeEstimate altitude.now }
    requires halves { halves ≤ 120 }
    ensures value { result ≡ kept_after altitude.now halves }
    ensures bound { unsigned_abs result ≤ 2 ^ 41 }
{
    sum(altitude.est, half_of_product(altitude.rate, halves))
}

// For the proof: the bounds of half a product.
fn half_of_product(rate: i64, halves: u16) -> i64
    requires rate { unsigned_abs rate ≤ 2 ^ 18 }
    requires halves { halves ≤ 120 }
    ensures value { result ≡ int_div_euclid (rate *ℤ pos halves) (pos 2) }
    ensures bound { unsigned_abs result ≤ 2 ^ 30 }
{
    product(rate, halves) >> 1
}

// For the proof: the bounds of a product.
fn product(rate: i64, halves: u16) -> i64
    requires rate { unsigned_abs rate ≤ 2 ^ 18 }
    requires halves { halves ≤ 120 }
    ensures value { result ≡ rate *ℤ pos halves }
    ensures bound { unsigned_abs result ≤ 2 ^ 30 }
{
    rate * i64::from(halves)
}

// For the proof: the bounds of a sum.
fn sum(a: i64, b: i64) -> i64
    requires a { unsigned_abs a ≤ 2 ^ 30 }
    requires b { unsigned_abs b ≤ 2 ^ 30 }
    ensures value { result ≡ a +ℤ b }
    ensures bound { unsigned_abs result ≤ 2 ^ 31 }
{
    a + b
}

// The rate for which a separation is judged.
fn judged_rate(profile: Profile, sense: Sense, strength: Strength, rate: i64) -> i64
    requires { unsigned_abs rate ≤ 2 ^ 18 }
    ensures value { result ≡ judged_rate profile sense strength rate }
    ensures bound { unsigned_abs result ≤ 2 ^ 20 }
{
    match profile {
        Profile::One => asked_rate(sense, strength, rate),
        Profile::Two => {
            if is_limit(strength) {
                floor_rate(sense, strength)
            } else {
                asked_rate(sense, strength, rate)
            }
        }
    }
}

fn is_limit(strength: Strength) -> bool
    ensures { result ≡ is_limit strength }
{
    match strength {
        Strength::Limit2000 | Strength::Limit1000 | Strength::Limit500 => true,
        Strength::Level | Strength::Positive | Strength::Increase => false,
    }
}

fn floor_rate(sense: Sense, strength: Strength) -> i64
    ensures value { result ≡ floor_rate sense strength }
    ensures bound { unsigned_abs result ≤ 2 ^ 20 }
{
    let floor = strength.floor();
    match sense {
        Sense::Up => floor,
        Sense::Down => -floor,
    }
}

/// The vertical rate that an advisory asks for, in 1/1024 ft/s. It is `rate` where that meets the floor already, else
/// the floor (this project's profile).
#[tactic(auto, unfolding(crate::specs::Separations::asked_rate))]
pub fn asked_rate(sense: Sense, strength: Strength, rate: i64) -> i64
    requires { unsigned_abs rate ≤ 2 ^ 18 }
    ensures value { result ≡ asked_rate sense strength rate }
    ensures bound { unsigned_abs result ≤ 2 ^ 20 }
{
    let floor = strength.floor();
    match sense {
        Sense::Up => rate.max(floor),
        Sense::Down => rate.min(-floor),
    }
}
