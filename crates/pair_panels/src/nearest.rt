// The pair of aircraft that come nearest.
ghost use Rattle.std.specs.Prelude.{◌≡◌, ◌<◌, ◌≤◌, IfSome, length};
ghost use Rattle.acas_base.specs.declared.TheConstants.{CRAFTS};
ghost use Rattle.acas_base.specs.declared.pairs.TheConstants.{PAIRS};
ghost use Rattle.pair_panels.specs.Nearest.{IsPair, are_pair, high, low, near_pair, nearer, nearest_pair, pair_at};

use acas_base::{CRAFTS, Encounter, PAIRS, is_active_at};
use flight::closest_approach;

/// Two aircraft, and where they are nearest as planned: the first cycle of least slant range, and that range in ft,
/// rounded down.
#[derive(Clone, Copy)]
pub struct NearPair {
    pub one: u8,
    pub other: u8,
    pub cycle: u16,
    pub range: u64,
}

// The lower index of a pair.
fn low(number: usize) -> u8
    requires { number < PAIRS }
    ensures { result ≡ low number }
{
    (number / CRAFTS) as u8
}

// The higher one.
fn high(number: usize) -> u8
    ensures { result ≡ high number }
{
    (number % CRAFTS) as u8
}

// Whether these are two aircraft in the order of their indices, at least one of which advises.
fn are_pair(encounter: &Encounter, one: u8, other: u8) -> bool
    ensures value { result ≡ are_pair encounter.now one other }
{
    let crafts = encounter.crafts();
    one < other
        && (usize::from(other) < crafts.len()
            && (is_active_at(crafts, one) || is_active_at(crafts, other)))
}

// Where two aircraft are nearest.
fn near_pair(encounter: &Encounter, one: u8, other: u8) -> NearPair
    requires one { one < length encounter.now.crafts }
    requires other { other < length encounter.now.crafts }
    ensures value { result ≡ near_pair encounter.now one other }
    ensures pair { IsPair encounter.now result }
{
    let closest = closest_approach(encounter, one, other);
    NearPair {
        one,
        other,
        cycle: closest.cycle,
        range: closest.range,
    }
}

// The pair with a number, if there is one.
#[tactic(auto, unfolding(crate::specs::Nearest::pair_at))]
fn pair_at(encounter: &Encounter, number: usize) -> Option<NearPair>
    requires { number < PAIRS }
    ensures value { result ≡ pair_at encounter.now number }
    ensures pair { IfSome result (IsPair encounter.now) }
{
    if !are_pair(encounter, low(number), high(number)) {
        return None;
    }
    Some(near_pair(encounter, low(number), high(number)))
}

// The nearer of two pairs.
fn nearer(best: Option<NearPair>, next: Option<NearPair>) -> Option<NearPair>
    ensures { result ≡ nearer best next }
{
    match best {
        None => next,
        Some(first) => match next {
            None => best,
            Some(second) => {
                if second.range < first.range {
                    next
                } else {
                    best
                }
            }
        },
    }
}

/// The two aircraft that come nearest, as planned, of those pairs in which at least one advises. Of pairs that come as
/// near it is the one with the least indices. None where there is no such pair.
#[tactic(auto, unfolding(crate::specs::Nearest::nearest_pair))]
pub fn nearest_pair(encounter: &Encounter) -> Option<NearPair>
    ensures value { result ≡ nearest_pair encounter.now }
    ensures pair { IfSome result (IsPair encounter.now) }
{
    let mut best = None;
    for number in 0..PAIRS {
        best = nearer(best, pair_at(encounter, number));
    }
    best
}
