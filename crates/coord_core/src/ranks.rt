// The rank of a pair.
ghost use Rattle.std.specs.Prelude.{◌≡◌, ◌≢◌};
ghost use Rattle.acas_base.specs.Next.{rank_by};

use acas_base::{Address, Kind, Rank};

/// The rank of an aircraft against another one. It is `Free` where that one gives no resolution advisories. Else it is
/// `First` for the lower address and `Second` for the higher one (FAA, Introduction to TCAS II v7.1).
pub fn rank_of(own: Address, target: Address, target_kind: Kind) -> Rank
    requires { own ≢ target }
    ensures { result ≡ rank_by own target target_kind }
{
    match target_kind {
        Kind::Ra => {
            if own.value() < target.value() {
                Rank::First
            } else {
                Rank::Second
            }
        }
        Kind::Ta | Kind::Xpdr => Rank::Free,
    }
}
