// Draws.
ghost use Rattle.std.specs.Prelude.{◌≡◌, ◌<◌, ◌≤◌};
ghost use Rattle.enc_gen.specs.Draws.{next_state, number_below, seed};

use std::marker::Model;

// How many states there are.
const STATES: u64 = 0x8000_0000;

// The state of the draws.
#[derive(Drop)]
pub(crate) struct Draws {
    state: u64,
}

impl Model for Draws {
    ghost use Rattle.std.specs.Prelude.{ℕ, ◌<◌};

    ghost Value = { ℕ };

    ghost view = { λ d. d.state };

    ghost invariant = { λ d. d.state < 2147483648 };

    ghost inverse = { λ n. record { state = n } };
}

impl Draws {
    // The draws for the encounter of this number.
    #[tactic(auto, unfolding(crate::specs::Draws::seed))]
    pub(crate) fn new(number: u32) -> Draws
        ensures { result ≡ seed number }
    {
        Draws {
            state: u64::from(number) % STATES,
        }
    }

    // A number below `count`.
    #[tactic(auto, unfolding(crate::specs::Draws::next_state, crate::specs::Draws::number_below))]
    pub(crate) fn draw(&mut self, count: u32) -> u32
        requires { 1 ≤ count }
        ensures number { result ≡ number_below count (next_state self.old) }
        ensures below { result < count }
        ensures state { self.new ≡ next_state self.old }
    {
        self.state = (1_103_515_245 * self.state + 12_345) % STATES;
        (self.state / 65_536 % u64::from(count)) as u32
    }
}
