// The order of keys.
ghost use Rattle.std.specs.Prelude.{◌≡◌, ℕ};
ghost use Rattle.acas_base.specs.Order.{call_key, fate_key, is_below, is_same_key, leg_key, plan_key};

use crate::{Call, Fate, Leg, LinkPlan};

/// Three numbers. The first counts most.
pub(crate) type Key = (u16, u16, u16);

pub(crate) fn is_below(a: Key, b: Key) -> bool
    ensures { result ≡ is_below a b }
{
    a.0 < b.0 || (a.0 == b.0 && (a.1 < b.1 || (a.1 == b.1 && a.2 < b.2)))
}

pub(crate) fn is_same(a: Key, b: Key) -> bool
    ensures { result ≡ is_same_key a b }
{
    a.0 == b.0 && (a.1 == b.1 && a.2 == b.2)
}

// A pair of aircraft and a number.
pub(crate) fn key(first: u8, second: u8, number: u16) -> Key
    ensures { result ≡ (first, second, number) }
{
    (u16::from(first), u16::from(second), number)
}

/// A record with a key, which no other record of its list has.
pub(crate) trait Keyed {
    ghost key_of: { Self → ℕ × ℕ × ℕ };

    fn key(&self) -> Key
        ensures { result ≡ key_of self.now };
}

impl Keyed for Call {
    ghost key_of = { call_key };

    fn key(&self) -> Key {
        key(self.craft, 0, 0)
    }
}

impl Keyed for Leg {
    ghost key_of = { leg_key };

    fn key(&self) -> Key {
        key(self.craft, 0, self.from)
    }
}

impl Keyed for LinkPlan {
    ghost key_of = { plan_key };

    fn key(&self) -> Key {
        key(self.sender, self.receiver, 0)
    }
}

impl Keyed for Fate {
    ghost key_of = { fate_key };

    fn key(&self) -> Key {
        key(self.sender, self.receiver, self.number)
    }
}
