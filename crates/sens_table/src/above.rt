// The bounds that own aircraft is above.
ghost use Rattle.std.specs.Prelude.{◌≡◌, ℤ, pos, ◌-ℤ◌, List, [], ◌∷◌, int_le};
ghost use Rattle.acas_base.specs.Ranges.{IsWithin};
ghost use Rattle.acas_base.specs.declared.setting.Profile.{Profile};
ghost use Rattle.sens_table.specs.Above.{above_after, above_of, level_of, stays_above, width_in};
ghost use Rattle.sens_table.specs.Levels.{IsLevel, level_at};

use crate::levels::{level, row};
use acas_base::{Level, Profile};

/// Which bounds own aircraft is above: those of the bands of the sensitivity levels, below the highest one, and the
/// heights from which on it may descend, and may increase a descent.
///
/// In profile 1 it is above a bound where its number is at least the bound. In profile 2 it is above it in cycle 1 where
/// the number is at least the bound. Later it is where the number is at least the bound and a width, or where it was
/// above the bound in the cycle before and the number is at least the bound less the width. So an aircraft that flies
/// along a bound keeps its level (FAA, Introduction to TCAS II v7.1; some widths are this project's).
///
/// | bound, ft | number | width, ft |
/// |---|---|---|
/// | 1,000 and 2,350 | height above the ground | 100 and 200 |
/// | 5,000, 10,000, 20,000 and 42,000 | altitude | 500 |
/// | 1,100 and 1,550 | height above the ground | 100 |
#[derive(Clone, Copy, Debug, PartialEq, Eq)]
pub struct Above {
    pub band_2: bool,
    pub band_3: bool,
    pub band_4: bool,
    pub band_5: bool,
    pub band_6: bool,
    pub band_7: bool,
    /// Own aircraft is high enough to descend.
    pub descends: bool,
    /// Own aircraft is high enough to increase a descent.
    pub descends_faster: bool,
}

impl Above {
    /// Above which bounds own aircraft is in cycle 1, by its altitude and the elevation of the ground, both in ft.
    #[tactic(auto, unfolding(crate::specs::Above::above_of))]
    pub fn first(altitude: i32, elevation: i32) -> Above
        requires altitude { IsWithin 100000 altitude }
        requires elevation { IsWithin 100000 elevation }
        ensures { (profile : Profile) → result ≡ above_of profile elevation (altitude ∷ []) }
    {
        let height = height_over(altitude, elevation);
        Above {
            band_2: 1_000 <= height,
            band_3: 2_350 <= height,
            band_4: 5_000 <= altitude,
            band_5: 10_000 <= altitude,
            band_6: 20_000 <= altitude,
            band_7: 42_000 <= altitude,
            descends: 1_100 <= height,
            descends_faster: 1_550 <= height,
        }
    }

    /// A cycle later.
    pub fn next(self, profile: Profile, altitude: i32, elevation: i32) -> Above
        requires altitude { IsWithin 100000 altitude }
        requires elevation { IsWithin 100000 elevation }
        ensures next { result ≡ above_after profile elevation self altitude }
        ensures above { (before : ℤ) (earlier : List ℤ) → self ≡ above_of profile elevation (before ∷ earlier) → result ≡ above_of profile elevation (altitude ∷ before ∷ earlier) }
    {
        let height = height_over(altitude, elevation);
        Above {
            band_2: stays_above(width_in(profile, 100), 1_000, self.band_2, height),
            band_3: stays_above(width_in(profile, 200), 2_350, self.band_3, height),
            band_4: stays_above(width_in(profile, 500), 5_000, self.band_4, altitude),
            band_5: stays_above(width_in(profile, 500), 10_000, self.band_5, altitude),
            band_6: stays_above(width_in(profile, 500), 20_000, self.band_6, altitude),
            band_7: stays_above(width_in(profile, 500), 42_000, self.band_7, altitude),
            descends: stays_above(width_in(profile, 100), 1_100, self.descends, height),
            descends_faster: stays_above(
                width_in(profile, 100),
                1_550,
                self.descends_faster,
                height,
            ),
        }
    }

    /// The sensitivity level of an aircraft that is above these bounds (FAA, Introduction to TCAS II v7.1, table of
    /// sensitivity levels). DMOD in ft is 6,076 times the booklet's nautical miles, rounded down, and so are the
    /// products of profile 2, by the square (this project's profiles).
    #[tactic(auto, unfolding(crate::specs::Above::level_of))]
    pub fn level(self) -> Level
        ensures value { result ≡ level_of self }
        ensures level { IsLevel result }
    {
        if !self.band_2 {
            level(2, row(20, 1822, 850), None, 0, 0, 0, 73_835)
        } else if !self.band_3 {
            level(
                3,
                row(25, 2005, 850),
                Some(row(15, 1215, 600)),
                300,
                15,
                13,
                73_835,
            )
        } else if !self.band_4 {
            level(
                4,
                row(30, 2916, 850),
                Some(row(20, 2126, 600)),
                300,
                18,
                18,
                102_631,
            )
        } else if !self.band_5 {
            level(
                5,
                row(40, 4557, 850),
                Some(row(25, 3341, 600)),
                350,
                20,
                20,
                102_631,
            )
        } else if !self.band_6 {
            level(
                6,
                row(45, 6076, 850),
                Some(row(30, 4860, 600)),
                400,
                22,
                24,
                102_631,
            )
        } else if !self.band_7 {
            level(
                7,
                row(48, 7898, 850),
                Some(row(35, 6683, 700)),
                600,
                25,
                26,
                147_671,
            )
        } else {
            level(
                7,
                row(48, 7898, 1200),
                Some(row(35, 6683, 800)),
                700,
                25,
                26,
                147_671,
            )
        }
    }
}

fn height_over(altitude: i32, elevation: i32) -> i32
    requires altitude { IsWithin 100000 altitude }
    requires elevation { IsWithin 100000 elevation }
    ensures { result ≡ altitude -ℤ elevation }
{
    altitude - elevation
}

fn width_in(profile: Profile, width: u16) -> u16
    ensures { result ≡ width_in profile width }
{
    match profile {
        Profile::One => 0,
        Profile::Two => width,
    }
}

fn stays_above(width: u16, bound: i32, was: bool, number: i32) -> bool
    requires { IsWithin 100000 bound }
    ensures { result ≡ stays_above width bound was number }
{
    let width = i32::from(width);
    bound + width <= number || (was && bound - width <= number)
}

/// A law: without a memory, in profile 1, the level is that of the newest altitude alone, and so is whether own aircraft
/// is high enough to descend.
pub fn level_law()
    ensures level { (elevation altitude : ℤ) (earlier : List ℤ) → level_of (above_of Profile.One elevation (altitude ∷ earlier)) ≡ level_at altitude (altitude -ℤ elevation) }
    ensures descends { (elevation altitude : ℤ) (earlier : List ℤ) → (above_of Profile.One elevation (altitude ∷ earlier)).descends ≡ int_le (pos 1100) (altitude -ℤ elevation) }
    ensures descends_faster { (elevation altitude : ℤ) (earlier : List ℤ) → (above_of Profile.One elevation (altitude ∷ earlier)).descends_faster ≡ int_le (pos 1550) (altitude -ℤ elevation) }
{}
