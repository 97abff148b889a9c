// What is advised in a cycle, and how an aircraft responds to it.
ghost use Rattle.std.specs.Prelude.{◌≡◌, ℕ, ◌+◌};
ghost use Rattle.advisory_report.specs.Composite.{clear};
ghost use Rattle.craft_view.specs.Separations.{IsResponse};
ghost use Rattle.response.specs.Flown.{Flight, advise_same, going_back, response_to};
ghost use Rattle.response.specs.Flying.{IsAdvised};

use advisory_report::{Composite, has_advice};
use craft_view::{FIRST_RESPONSE, LATER_RESPONSE, Response};

// Without advice the rate goes back at once.
const GOING_BACK: Response = Response {
    delay: 0,
    step: FIRST_RESPONSE.step,
};

// Whether two composites advise the same.
pub(crate) fn advise_same(one: &Composite, other: &Composite) -> bool
    ensures { result ≡ advise_same one.now other.now }
{
    one.up == other.up && one.down == other.down
}

// The response to what is shown now, by what was shown before the advice changed last.
pub(crate) fn response_to(before: &Composite, now: &Composite) -> Response
    ensures value { result ≡ response_to before.now now.now }
    ensures response { IsResponse result }
{
    if !has_advice(now) {
        return GOING_BACK;
    }
    if has_advice(before) {
        return LATER_RESPONSE;
    }
    FIRST_RESPONSE
}

// What was advised so far: what was shown in the last cycle, in which cycle the advice changed last (0 where it never
// did), and what was shown before that one.
#[derive(Clone, Copy)]
pub(crate) struct Advised {
    pub shown: Composite,
    pub changed: u16,
    pub before: Composite,
}

impl Advised {
    // Before the first cycle.
    pub fn nothing() -> Advised
        ensures { result ≡ record { shown = clear; changed = 0; before = clear } }
    {
        Advised {
            shown: Composite::clear(),
            changed: 0,
            before: Composite::clear(),
        }
    }

    // With what is shown in the next cycle.
    pub fn with(&self, cycle: u16, now: Composite) -> Advised
        ensures { (flight : Flight) (n : ℕ) → IsAdvised flight n self.now → cycle ≡ n + 1 → now ≡ flight.shown cycle → IsAdvised flight cycle result }
    {
        if advise_same(&self.shown, &now) {
            return Advised {
                shown: now,
                changed: self.changed,
                before: self.before,
            };
        }
        Advised {
            shown: now,
            changed: cycle,
            before: self.shown,
        }
    }
}
