// What is kept of a message: what is planned for its copies, and its takes.
ghost use Rattle.std.specs.Prelude.{◌≡◌, ◌&&◌, not};
ghost use Rattle.acas_base.specs.Fates.{copies_of};
ghost use Rattle.deliveries.specs.Mishaps.{is_held_back};
ghost use Rattle.deliveries.specs.Noted.{copies_for, no_copies, no_takes, some_copy, some_left, with_take};

use acas_base::{Encounter, Fate};

/// How many copies a message has, and whether one of them is held back.
#[derive(Clone, Copy)]
pub(crate) struct Copies {
    pub count: u8,
    pub held: bool,
}

// Whether a copy is held back for a commit or more.
fn is_held_back(fate: &Fate) -> bool
    ensures { result ≡ is_held_back (copies_of fate.now) }
{
    if fate.copies >= 1 && fate.first.hold > 0 {
        return true;
    }
    if fate.copies >= 2 && fate.second.hold > 0 {
        return true;
    }
    fate.copies >= 3 && fate.third.hold > 0
}

impl Copies {
    /// There are none.
    pub fn none() -> Copies
        ensures { result ≡ no_copies }
    {
        Copies {
            count: 0,
            held: false,
        }
    }

    /// Those of a message, by the plan of an encounter.
    pub fn planned(encounter: &Encounter, sender: u8, receiver: u8, number: u16) -> Copies
        ensures { result ≡ copies_for encounter.now sender receiver number }
    {
        let fate = encounter.fate(sender, receiver, number);
        Copies {
            count: fate.copies,
            held: is_held_back(&fate),
        }
    }
}

/// Which copies of a message were taken, and whether one of them was good.
#[derive(Clone, Copy)]
pub(crate) struct Takes {
    pub first: bool,
    pub second: bool,
    pub third: bool,
    pub good: bool,
}

impl Takes {
    /// None was taken.
    pub fn none() -> Takes
        ensures { result ≡ no_takes }
    {
        Takes {
            first: false,
            second: false,
            third: false,
            good: false,
        }
    }

    /// One take more.
    pub fn with(self, copy: u8, good: bool) -> Takes
        ensures { result ≡ with_take self copy good }
    {
        Takes {
            first: copy == 0 || self.first,
            second: copy == 1 || self.second,
            third: copy == 2 || self.third,
            good: good || self.good,
        }
    }

    /// Whether some copy was taken, and none was good.
    pub fn is_spoilt(self) -> bool
        ensures { result ≡ (some_copy self && not self.good) }
    {
        let some = self.first || self.second || self.third;
        some && !self.good
    }

    /// Whether one of the first so many copies, at most three, wasn't taken.
    pub fn some_left(self, copies: u8) -> bool
        ensures { result ≡ some_left self copies }
    {
        if copies >= 1 && !self.first {
            return true;
        }
        if copies >= 2 && !self.second {
            return true;
        }
        copies >= 3 && !self.third
    }
}
