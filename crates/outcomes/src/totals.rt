// How many of many runs have something.
ghost use Rattle.std.specs.Prelude.{◌≡◌, ◌+◌, ◌<◌, ◌++◌, ◌∷◌, [], List, cond};
ghost use Rattle.outcomes.specs.Totals.{AreFew, has_advised, has_equal, has_reversed, has_turned, totals_of};
ghost use Rattle.outcomes.specs.declared.outcome.Outcome.{Outcome};

use crate::outcome::Outcome;

/// How many runs there are, and how many of them have an advisory, a turn, a reversal, and equal senses.
#[derive(Clone, Copy)]
pub struct Totals {
    pub runs: u32,
    pub advised: u32,
    pub turned: u32,
    pub reversed: u32,
    pub equal: u32,
}

fn has_advised(it: &Outcome) -> bool
    ensures { result ≡ has_advised it.now }
{
    it.first.is_some()
}

fn has_turned(it: &Outcome) -> bool
    ensures { result ≡ has_turned it.now }
{
    0 < it.turns
}

fn has_reversed(it: &Outcome) -> bool
    ensures { result ≡ has_reversed it.now }
{
    0 < it.reversals
}

fn has_equal(it: &Outcome) -> bool
    ensures { result ≡ has_equal it.now }
{
    0 < it.equal
}

// One more, where something holds.
fn more(count: u32, holds: bool) -> u32
    requires { count < 4294967295 }
    ensures { result ≡ count + cond holds 1 0 }
{
    if holds { count + 1 } else { count }
}

impl Totals {
    /// Those of no run.
    pub fn none() -> Totals
        ensures value { result ≡ totals_of [] }
        ensures few { AreFew result }
    {
        Totals {
            runs: 0,
            advised: 0,
            turned: 0,
            reversed: 0,
            equal: 0,
        }
    }

    /// Those with one run more.
    pub fn with(&self, it: &Outcome) -> Totals
        requires few { AreFew self.now }
        requires room { self.now.runs < 4294967295 }
        ensures value { (list : List Outcome) → self.now ≡ totals_of list → result ≡ totals_of (list ++ it.now ∷ []) }
        ensures few { AreFew result }
        ensures runs { result.runs ≡ self.now.runs + 1 }
    {
        Totals {
            runs: self.runs + 1,
            advised: more(self.advised, has_advised(it)),
            turned: more(self.turned, has_turned(it)),
            reversed: more(self.reversed, has_reversed(it)),
            equal: more(self.equal, has_equal(it)),
        }
    }
}
