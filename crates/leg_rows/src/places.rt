// The places of one aircraft of an encounter.
ghost use Rattle.std.specs.Prelude.{◌≡◌, ◌<◌, All, IfOk, length};
ghost use Rattle.flight.specs.Bounds.{IsReachable};
ghost use Rattle.leg_rows.specs.Rows.{places_of};

use acas_base::Encounter;
use flight::{Place, position};
use std::alloc::{AllocError, Global};

/// The places of an aircraft in the cycles of the run, from cycle 1 on. The error says that memory was wanting.
pub fn places_of(alloc: Global, encounter: &Encounter, craft: u8) -> Result<Vec<Place>, AllocError>
    requires { craft < length encounter.now.crafts }
    ensures value { IfOk result (λ places. places.items ≡ places_of encounter.now craft) }
    ensures reachable { IfOk result (λ places. All IsReachable places.items) }
{
    let mut places = Vec::with_capacity(alloc, usize::from(encounter.cycles()))?;
    for cycle in 0..encounter.cycles() {
        places.push(position(encounter, craft, cycle + 1))?;
    }
    Ok(places)
}
