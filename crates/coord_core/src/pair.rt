// The next cell of a pair.
ghost use Rattle.std.specs.Prelude.{◌≡◌, ◌<◌};
ghost use Rattle.acas_base.specs.Next.{starting_sense, advisory, new_advisory, reversal_of, continuation_of, changes_sense, is_turned_after, continuing_cell, traffic_cell, starting_cell, ends, cell_after, following_cell};
ghost use Rattle.acas_base.specs.declared.advisory.Intent.{Intent};

use acas_base::{Cell, Choice, Intent, Rank, Sense, Strength, View, Vrc, meets_floor, strongest};
use reversal::has_to_reverse;
use sense_pick::pick;
use strength_pick::{least, next_strength};

// From this age on, in cycles, an advisory ends where it doesn't last.
const ENDS_FROM: u16 = 5;

// The sense in which an advisory starts. A complement in force decides it, whatever the rank.
fn starting_sense(view: &View, rac: Vrc) -> Sense
    ensures { result ≡ starting_sense view.now rac }
{
    match rac {
        Vrc::Nil => pick(view),
        Vrc::NotBelow => Sense::Up,
        Vrc::NotAbove => Sense::Down,
    }
}

// An advisory. It is corrective where own rate doesn't meet its floor.
fn advisory(
    view: &View,
    sense: Sense,
    strength: Strength,
    age: u16,
    turned: bool,
    crossing: bool,
) -> Cell
    ensures { result ≡ advisory view.now sense strength age turned crossing }
{
    Cell::Ra(Intent {
        sense,
        strength,
        age,
        turned,
        crossing,
        corrective: !meets_floor(view, sense, strength),
    })
}

// A new advisory, of the least strength.
fn new_advisory(view: &View, sense: Sense) -> Cell
    ensures { result ≡ new_advisory view.now sense }
{
    let strength = least(view, sense, Choice::Fresh);
    advisory(
        view,
        sense,
        strength,
        1,
        false,
        view.crosses.holds_of(sense),
    )
}

// The advisory in the other sense.
fn reversal_of(prev: &Intent, view: &View, turned: bool) -> Cell
    requires { prev.now.age < 600 }
    ensures { result ≡ reversal_of prev.now view.now turned }
{
    let sense = prev.sense.other();
    let strength = strongest(view, sense, Choice::Fresh);
    advisory(
        view,
        sense,
        strength,
        prev.age + 1,
        turned,
        view.crosses.holds_of(sense),
    )
}

// The advisory in the same sense.
fn continuation_of(prev: &Intent, view: &View) -> Cell
    requires { prev.now.age < 600 }
    ensures { result ≡ continuation_of prev.now view.now }
{
    let strength = next_strength(prev, view);
    advisory(
        view,
        prev.sense,
        strength,
        prev.age + 1,
        prev.turned,
        prev.crossing,
    )
}

/// Whether an advisory that goes on changes its sense. A `Second` aircraft changes it where the complement in force
/// forbids it. Any other aircraft changes it once, by a reversal of its own.
pub fn changes_sense(prev: &Intent, view: &View, rac: Vrc, rank: Rank) -> bool
    ensures { result ≡ changes_sense prev.now view.now rac rank }
{
    match rank {
        Rank::Second => rac.forbids(prev.sense),
        Rank::First | Rank::Free => has_to_reverse(prev, view) && !prev.turned,
    }
}

// A reversal of its own is noted, and isn't made a second time. A change of sense for a complement isn't one.
fn is_turned_after(prev: &Intent, rank: Rank) -> bool
    ensures { result ≡ is_turned_after prev.now rank }
{
    match rank {
        Rank::Second => prev.turned,
        Rank::First | Rank::Free => true,
    }
}

fn continuing_cell(prev: &Intent, view: &View, rac: Vrc, rank: Rank) -> Cell
    requires { prev.now.age < 600 }
    ensures { result ≡ continuing_cell prev.now view.now rac rank }
{
    if changes_sense(prev, view, rac, rank) {
        reversal_of(prev, view, is_turned_after(prev, rank))
    } else {
        continuation_of(prev, view)
    }
}

// The cell without a resolution advisory.
fn traffic_cell(view: &View) -> Cell
    ensures { result ≡ traffic_cell view.now }
{
    if view.traffic {
        Cell::Traffic
    } else {
        Cell::Clear
    }
}

fn starting_cell(view: &View, rac: Vrc) -> Cell
    ensures { result ≡ starting_cell view.now rac }
{
    if view.threat {
        new_advisory(view, starting_sense(view, rac))
    } else {
        traffic_cell(view)
    }
}

/// Whether an advisory ends: own aircraft doesn't resolve any more, or the advisory is at least five cycles old and
/// doesn't last.
pub fn ends(prev: &Intent, view: &View) -> bool
    ensures { result ≡ ends prev.now view.now }
{
    !view.resolves || (!view.lasts && prev.age >= ENDS_FROM)
}

fn cell_after(prev: &Cell, view: &View, rac: Vrc, rank: Rank) -> Cell
    requires { (intent : Intent) → prev.now ≡ Cell.Ra intent → intent.age < 600 }
    ensures { result ≡ cell_after prev.now view.now rac rank }
{
    match prev {
        Cell::Clear | Cell::Traffic => starting_cell(view, rac),
        Cell::Ra(intent) => {
            if ends(intent, view) {
                traffic_cell(view)
            } else {
                continuing_cell(intent, view, rac, rank)
            }
        }
    }
}

/// The next cell of an aircraft for another one (FAA, Introduction to TCAS II v7.1; ICAO Annex 10 vol. IV, 4.3; with
/// the details of this project's profile).
///
/// It follows from the cell before, the present view, the complement in force from the other one (`Nil` where none is)
/// and the rank against it. An advisory before has to be younger than the 600 cycles of a longest run.
///
/// - Without tracks it is Clear.
/// - A threat starts an advisory. A complement in force decides its sense, whatever the rank. Without one it starts in
///   the chosen sense.
/// - An advisory ends where own aircraft doesn't resolve any more, and from an age of five cycles on where it doesn't
///   last. Else it goes on. A `Second` aircraft changes its sense where the complement forbids it. Any other aircraft
///   does so once, by a reversal of its own.
/// - Where no advisory starts or goes on, it is Traffic where the tests of a traffic advisory hold, else Clear.
#[inline(always)]
pub fn next_cell(prev: &Cell, view: &View, rac: Vrc, rank: Rank) -> Cell
    requires { (intent : Intent) → prev.now ≡ Cell.Ra intent → intent.age < 600 }
    ensures { result ≡ following_cell prev.now view.now rac rank }
{
    if view.tested {
        cell_after(prev, view, rac, rank)
    } else {
        Cell::Clear
    }
}
