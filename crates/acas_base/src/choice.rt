// What a choice of a strength follows.
use crate::Sense;

/// A mark for each vertical sense.
#[derive(Clone, Copy)]
pub struct BySense {
    pub up: bool,
    pub down: bool,
}

impl BySense {
    ghost use Rattle.std.specs.Prelude.{◌≡◌};
    ghost use Rattle.acas_base.specs.Senses.{holds_of, neither, both};

    /// Of neither sense.
    pub fn neither() -> BySense
        ensures { result ≡ neither }
    {
        BySense {
            up: false,
            down: false,
        }
    }

    /// Of both senses.
    pub fn both() -> BySense
        ensures { result ≡ both }
    {
        BySense {
            up: true,
            down: true,
        }
    }

    /// Whether it holds of this sense.
    pub fn holds_of(&self, sense: Sense) -> bool
        ensures { result ≡ holds_of self.now sense }
    {
        match sense {
            Sense::Up => self.up,
            Sense::Down => self.down,
        }
    }
}

/// What a choice of a strength follows (this project's profiles). It is `Fresh` where an advisory starts or changes its
/// sense, or was weaker than `Positive`: then it goes by the first response, and never increases. Else it goes by the
/// later response. Then it may increase where it is `Urgent`, and may not where it is `Steady`.
#[derive(Clone, Copy, PartialEq, Eq)]
pub enum Choice {
    Fresh,
    Steady,
    Urgent,
}

impl Choice {
    ghost use Rattle.std.specs.Prelude.{◌≡◌};
    ghost use Rattle.acas_base.specs.Strengths.{is_fresh, may_increase};

    /// Whether it goes by the first response.
    pub fn is_fresh(self) -> bool
        ensures { result ≡ is_fresh self }
    {
        match self {
            Choice::Fresh => true,
            Choice::Steady | Choice::Urgent => false,
        }
    }

    /// Whether it may increase.
    pub fn may_increase(self) -> bool
        ensures { result ≡ may_increase self }
    {
        match self {
            Choice::Fresh | Choice::Steady => false,
            Choice::Urgent => true,
        }
    }
}
