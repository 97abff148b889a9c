// Ordered pairs of aircraft.
ghost use Rattle.std.specs.Prelude.{◌≡◌, ◌+◌, ◌*◌};
ghost use Rattle.acas_base.specs.declared.TheConstants.{CRAFTS};

use crate::CRAFTS;

/// The most ordered pairs of aircraft of an encounter. The pair of each aircraft with itself counts.
pub const PAIRS: usize = CRAFTS * CRAFTS;

/// The place of an ordered pair of aircraft among these, by their indices.
pub fn pair_of(own: u8, other: u8) -> usize
    ensures { result ≡ own * CRAFTS + other }
{
    usize::from(own) * CRAFTS + usize::from(other)
}
