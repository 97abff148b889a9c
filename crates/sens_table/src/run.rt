// The bounds that an aircraft is above, and its level, along its run.
ghost use Rattle.std.specs.Prelude.{◌≡◌, ℕ, ◌+◌, ◌<◌, ◌≤◌, ℤ, [], length};
ghost use Rattle.acas_base.specs.Ranges.{IsWithin};
ghost use Rattle.acas_base.specs.declared.setting.Profile.{Profile};
ghost use Rattle.flight.specs.Inside.{IsInside};
ghost use Rattle.flight.specs.Measurement.{own_altitude};
ghost use Rattle.sens_table.specs.Above.{above_of};
ghost use Rattle.sens_table.specs.Levels.{IsLevel};
ghost use Rattle.sens_table.specs.Run.{above_in, level_in};

use crate::above::Above;
use acas_base::{Encounter, Level};
use flight::own_altitude;

impl Above {
    /// Above no bound, as before the first cycle.
    pub fn none() -> Above
        ensures { (profile : Profile) (elevation : ℤ) → result ≡ above_of profile elevation [] }
    {
        Above {
            band_2: false,
            band_3: false,
            band_4: false,
            band_5: false,
            band_6: false,
            band_7: false,
            descends: false,
            descends_faster: false,
        }
    }

    /// The bounds that an aircraft is above a cycle later, at this altitude, in ft. `cycle` is the one before.
    pub fn go_on(self, cycle: u16, encounter: &Encounter, altitude: i32) -> Above
        requires { IsWithin 100000 altitude }
        ensures { (craft : ℕ) → self ≡ above_in encounter.now craft cycle → altitude ≡ own_altitude encounter.now craft (cycle + 1) → result ≡ above_in encounter.now craft (cycle + 1) }
    {
        // For the proof: the elevation is in its range.
        encounter.valid_law();
        if cycle == 0 {
            Above::first(altitude, encounter.ground())
        } else {
            self.next(encounter.profile(), altitude, encounter.ground())
        }
    }
}

// The bounds that an aircraft is above in a cycle.
fn above_in(encounter: &Encounter, craft: u8, cycle: u16) -> Above
    requires inside { IsInside encounter.now }
    requires craft { craft < length encounter.now.crafts }
    requires cycle { cycle ≤ encounter.now.cycles }
    ensures { result ≡ above_in encounter.now craft cycle }
{
    // No run is longer than 600 cycles.
    encounter.valid_law();
    let mut above = Above::none();
    for before in 0..cycle {
        let altitude = own_altitude(encounter, craft, before + 1);
        above = above.go_on(before, encounter, altitude);
    }
    above
}

/// The sensitivity level of an aircraft in a cycle, by its altitudes up to that cycle.
pub fn level_in(encounter: &Encounter, craft: u8, cycle: u16) -> Level
    requires inside { IsInside encounter.now }
    requires craft { craft < length encounter.now.crafts }
    requires cycle { cycle ≤ encounter.now.cycles }
    ensures value { result ≡ level_in encounter.now craft cycle }
    ensures level { IsLevel result }
{
    above_in(encounter, craft, cycle).level()
}
