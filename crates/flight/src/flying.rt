// Where an aircraft is, and whether all stay in the box.
ghost use Rattle.std.specs.Prelude.{◌≡◌, ◌↔◌, ◌<◌, IsTrue, length};
ghost use Rattle.acas_base.specs.Encounter.{Parts};
ghost use Rattle.acas_base.specs.Ranges.{IsCycle};
ghost use Rattle.flight.specs.Bounds.{IsReachable};
ghost use Rattle.flight.specs.Flight.{position};
ghost use Rattle.flight.specs.Inside.{IsInside, stays_inside};

use crate::Place;
use crate::course::Course;
use acas_base::Encounter;

/// Where an aircraft is in a cycle, counted from 1 (this project's profile). In cycle 1 it is at its start. From each
/// cycle to the next it moves by the rates of its leg that began last. Where no leg has begun it doesn't move.
///
/// It takes time for each of that aircraft's legs, however many cycles they last.
pub fn position(encounter: &Encounter, craft: u8, cycle: u16) -> Place
    requires craft { craft < length encounter.now.crafts }
    requires cycle { IsCycle cycle }
    ensures value { result ≡ position encounter.now craft cycle }
    ensures bounds { IsReachable result }
{
    Course::of(encounter, usize::from(craft)).place_in(cycle)
}

/// Whether every aircraft, whatever its kind, is in the box in every cycle of the run: `x` and `y`
/// within 1,000,000 ft of zero, and an altitude of -1,000 to 60,000 ft (this project's profile).
pub fn inside(encounter: &Encounter) -> bool
    ensures { IsTrue result ↔ IsInside encounter.now }
{
    for craft in 0..encounter.crafts().len() {
        if !Course::of(encounter, craft).stays_inside(encounter.cycles()) {
            return false;
        }
    }
    true
}

/// A law: the truth value that [`inside`] gives is true exactly where all aircraft stay in the box.
pub fn inside_law()
    ensures { (e : Parts) → IsTrue (stays_inside e) ↔ IsInside e }
{}
