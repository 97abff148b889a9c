// The records that stand in the lists of an encounter.
ghost use Rattle.std.specs.Prelude.{◌≡◌, ◌↔◌, ℕ, Bool, All, IsTrue};
ghost use Rattle.acas_base.specs.Encounter.{AreListed, AreRecords, IsCall, IsFate, IsLeg, IsMiss, IsPlan};
ghost use Rattle.acas_base.specs.Order.{IsRising, call_below, fate_below, leg_below, miss_below, plan_below};

use crate::checks::{are_copies, are_rates, is_cycle, is_pair};
use crate::keys::{Keyed, is_below, key};
use crate::{Call, Fate, Leg, LinkPlan, Miss, is_call_sign};

/// A record of one of an encounter's lists. It names aircraft by their indices, and its list has an order.
pub trait Record {
    ghost fits: { ℕ → Self → Type 0 };

    ghost below: { Self → Self → Bool };

    /// Whether it is in its ranges, and names aircraft among `count` ones.
    fn fits(&self, count: usize) -> bool
        ensures { IsTrue result ↔ fits count self.now };

    /// Whether it may stand before another one: its key is below the other's. Of two misses of one pair the first also
    /// ends before the second begins.
    fn is_below(&self, other: &Self) -> bool
        ensures { result ≡ below self.now other.now };
}

/// Whether these are the lists of an encounter with `count` aircraft.
pub(crate) fn are_all_records(
    count: usize,
    legs: &[Leg],
    misses: &[Miss],
    plans: &[LinkPlan],
    fates: &[Fate],
) -> bool
    ensures { IsTrue result ↔ AreRecords count legs.now misses.now plans.now fates.now }
{
    are_records(count, legs)
        && are_records(count, misses)
        && are_records(count, plans)
        && are_records(count, fates)
}

/// Whether these are a list of an encounter with `count` aircraft.
pub(crate) fn are_records<T: Record>(count: usize, records: &[T]) -> bool
    ensures { IsTrue result ↔ AreListed T.fits T.below count records.now }
{
    all_fit(count, records) && are_rising(records)
}

fn all_fit<T: Record>(count: usize, records: &[T]) -> bool
    ensures { IsTrue result ↔ All (T.fits count) records.now }
{
    records.iter().all(|record| record.fits(count))
}

fn are_rising<T: Record>(records: &[T]) -> bool
    ensures { IsTrue result ↔ IsRising T.below records.now }
{
    records.is_sorted_by(|a, b| a.is_below(b))
}

impl Record for Call {
    ghost fits = { IsCall };

    ghost below = { call_below };

    fn fits(&self, count: usize) -> bool {
        usize::from(self.craft) < count && is_call_sign(self.sign.bytes())
    }

    fn is_below(&self, other: &Call) -> bool {
        is_below(self.key(), other.key())
    }
}

impl Record for Leg {
    ghost fits = { IsLeg };

    ghost below = { leg_below };

    fn fits(&self, count: usize) -> bool {
        usize::from(self.craft) < count && is_cycle(self.from) && are_rates(self)
    }

    fn is_below(&self, other: &Leg) -> bool {
        is_below(self.key(), other.key())
    }
}

impl Record for Miss {
    ghost fits = { IsMiss };

    ghost below = { miss_below };

    fn fits(&self, count: usize) -> bool {
        is_pair(count, self.own, self.target)
            && is_cycle(self.from)
            && is_cycle(self.to)
            && self.from <= self.to
    }

    // The earlier miss is over.
    fn is_below(&self, other: &Miss) -> bool {
        is_below(
            key(self.own, self.target, self.to),
            key(other.own, other.target, other.from),
        )
    }
}

impl Record for LinkPlan {
    ghost fits = { IsPlan };

    ghost below = { plan_below };

    fn fits(&self, count: usize) -> bool {
        is_pair(count, self.sender, self.receiver)
            && are_copies(self.copies, self.first, self.second, self.third)
    }

    fn is_below(&self, other: &LinkPlan) -> bool {
        is_below(self.key(), other.key())
    }
}

impl Record for Fate {
    ghost fits = { IsFate };

    ghost below = { fate_below };

    fn fits(&self, count: usize) -> bool {
        is_pair(count, self.sender, self.receiver)
            && is_cycle(self.number)
            && are_copies(self.copies, self.first, self.second, self.third)
    }

    fn is_below(&self, other: &Fate) -> bool {
        is_below(self.key(), other.key())
    }
}
