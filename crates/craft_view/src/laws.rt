// What every view keeps, and what it follows from.
ghost use Rattle.std.specs.Prelude.{ℕ};
ghost use Rattle.acas_base.specs.Encounter.{Parts};
ghost use Rattle.craft_view.specs.Facts.{IsAlike, MeetsLimits, ResolvesAsOwn, SeesAlike, SeesNothing, Threatens};

/// A law: a threat is seen only where the pair is tested and the view resolves. The view of another aircraft resolves
/// exactly where own aircraft gives resolution advisories and its sensitivity level is above 2. In the own place and
/// past the last aircraft nothing is seen. All limits on the vertical rate that own rate meets give the same
/// separation.
pub fn view_law()
    ensures threat { (e : Parts) (own target cycle : ℕ) → Threatens e own target cycle }
    ensures resolves { (e : Parts) (own target cycle : ℕ) → ResolvesAsOwn e own target cycle }
    ensures nothing { (e : Parts) (own target cycle : ℕ) → SeesNothing e own target cycle }
    ensures limits { (e : Parts) (own target cycle : ℕ) → MeetsLimits e own target cycle }
{}

/// A law about two encounters of which an aircraft has equal sights up to a cycle. It has equal views of both in all
/// cycles up to that one, and equal ranks, and both have the same number of aircraft.
pub fn sight_law()
    ensures { (e f : Parts) (own cycle : ℕ) → SeesAlike e f own cycle → IsAlike e f own cycle }
{}
