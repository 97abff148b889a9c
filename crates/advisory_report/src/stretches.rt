// Rows of cycles with one word.
ghost use Rattle.std.specs.Prelude.{◌≡◌, ◌↔◌, ◌⊎◌, ℕ, ◌+◌, ◌<◌, IsTrue};
ghost use Rattle.advisory_report.specs.Composite.{word_of};
ghost use Rattle.advisory_report.specs.Stretches.{IsStretch};
ghost use Rattle.advisory_report.specs.declared.composite.Composite.{Composite};

use crate::composite::{Composite, word};

/// The longest row of cycles, up to its last one, in which an aircraft shows one word of the report.
#[derive(Clone, Copy)]
pub struct Stretch {
    /// What is shown in the last cycle of the row.
    pub shown: Composite,
    /// The first cycle of the row.
    pub first: u16,
    /// Its last cycle.
    pub last: u16,
}

/// Whether two composites have the same word in the report.
pub fn has_same_word(one: &Composite, other: &Composite) -> bool
    ensures { IsTrue result ↔ (word_of one.now ≡ word_of other.now) }
{
    word(one) == word(other)
}

impl Stretch {
    /// The row up to cycle 1, by what is shown in it.
    pub fn first_cycle(shown: Composite) -> Stretch
        ensures { (all : ℕ → Composite) → shown ≡ all 1 → IsStretch all result }
    {
        Stretch {
            shown,
            first: 1,
            last: 1,
        }
    }

    /// The row up to the next cycle, by what is shown in that cycle. Where the word changes, the row before is over,
    /// and a new one begins with that cycle.
    pub fn with(&self, next: Composite) -> Stretch
        requires { self.now.last < 65535 }
        ensures row { (all : ℕ → Composite) → IsStretch all self.now → next ≡ all (self.now.last + 1) → IsStretch all result }
        ensures last { result.last ≡ self.now.last + 1 }
        ensures first { (result.first ≡ self.now.first) ⊎ (result.first ≡ result.last) }
    {
        if has_same_word(&self.shown, &next) {
            return Stretch {
                shown: next,
                first: self.first,
                last: self.last + 1,
            };
        }
        Stretch {
            shown: next,
            first: self.last + 1,
            last: self.last + 1,
        }
    }
}
