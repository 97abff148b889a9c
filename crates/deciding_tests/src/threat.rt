// A view and an advisory that the tests vary.
ghost use Rattle.std.specs.Prelude.{◌≡◌};

use acas_base::{BySense, Intent, Sense, Seps, Strength, View};

pub(crate) const FOOT: i64 = 1024;

pub(crate) const NONE: Seps = Seps {
    up: [0; 6],
    down: [0; 6],
};

/// A threat at own level, 100 ft below, high above ground. ALIM is 600 ft.
pub(crate) const THREAT: View = View {
    tested: true,
    traffic: true,
    resolves: true,
    threat: true,
    lasts: true,
    far: false,
    climbs: true,
    descends: true,
    descends_faster: true,
    side: Sense::Up,
    crosses: BySense {
        up: false,
        down: true,
    },
    halves: 50,
    hurries: BySense {
        up: true,
        down: true,
    },
    chases: BySense {
        up: false,
        down: false,
    },
    settled_at: 5,
    looks_ahead: false,
    alim: 600 * FOOT,
    enough: 600 * FOOT,
    gap: 100 * FOOT,
    rate: 0,
    first: NONE,
    later: NONE,
};

/// An advisory up of this age, in cycles: climb.
pub(crate) fn advisory(age: u16) -> Intent
    ensures { result.age ≡ age }
{
    Intent {
        sense: Sense::Up,
        strength: Strength::Positive,
        age,
        turned: false,
        crossing: false,
        corrective: true,
    }
}
