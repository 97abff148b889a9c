// What a view says in profile 2.
ghost use Rattle.std.specs.Prelude.{◌≡◌, ◌≤◌, ◌<◌, ◌^◌, pos, option_copied};
ghost use Rattle.acas_base.specs.declared.TheConstants.{CRAFTS};
ghost use Rattle.acas_base.specs.Ranges.{IsBetween};
ghost use Rattle.craft_view.specs.KnownTracks.{IsMotion};
ghost use Rattle.craft_view.specs.Own.{AreRows};
ghost use Rattle.craft_view.specs.ProfileTwo.{approach_to, chases_in, crosses_at, held, go_together, height_of, height_rate_of, holds_in_altitude, holds_in_range, hurries_in, is_soon, passes_far, row_by_speed, shows_traffic};
ghost use Rattle.craft_view.specs.Separations.{IsApproach};
ghost use Rattle.craft_view.specs.Views.{asks_for, outline_of, second_view, shown, with_separations};
ghost use Rattle.sens_table.specs.Levels.{IsTableRow};
ghost use Rattle.vert_test.specs.Passing.{passes_close};

use crate::hits::{is_altitude_hit, is_range_hit};
use crate::motion::{Motion, difference};
use crate::own::OwnAircraft;
use crate::pair::{asks_for, put_plain, side_of};
use crate::separations::{
    Approach as Kept, FIRST_RESPONSE, LATER_RESPONSE, apart, approach_at, halves_to, separation,
    separations,
};
use acas_base::{BySense, Cells, Profile, Row, Sense, Strength, View};
use miss_test::{grows, is_far, opens};
use tau_test::halves_by_modified_tau;
use vert_test::{Approach, is_slow, passes_close};

// The age, in cycles, from which on an advisory may weaken.
const SETTLED_AT: u16 = 10;

// 100 ft and 200 ft, in 1/1024 ft.
const HUNDRED_FEET: i64 = 102_400;

const TWO_HUNDRED_FEET: i64 = 204_800;

// 600 ft/min, in 1/1024 ft/s.
const FAST: i64 = 10_240;

// The least half-seconds to the closest approach with which a chase is answered.
const TIME_TO_TURN: u16 = 8;

// The range test.
fn holds_in_range(own: &OwnAircraft, motion: &Motion, row: &Row) -> bool
    requires own { AreRows own.now }
    requires motion { IsMotion motion.now }
    requires row { IsTableRow row.now }
    ensures { result ≡ holds_in_range own.now motion.now row.now }
{
    !opens(own.level.product, &motion.square) && is_range_hit(&motion.range, row)
}

/// Whether the tests of a traffic advisory hold.
pub(crate) fn shows_traffic(own: &OwnAircraft, motion: &Motion) -> bool
    requires own { AreRows own.now }
    requires motion { IsMotion motion.now }
    ensures { result ≡ shows_traffic own.now motion.now }
{
    holds_in_range(own, motion, &own.level.ta) && is_altitude_hit(motion, &own.level.ta)
}

// The half-seconds to the closest approach, and those by modified tau.
fn approach_to(motion: &Motion, row: &Row) -> Approach
    requires motion { IsMotion motion.now }
    requires row { IsTableRow row.now }
    ensures value { result ≡ approach_to motion.now row.now }
    ensures halves { result.halves ≤ 120 }
    ensures nearer { result.nearer ≤ 120 }
{
    if grows(&motion.square) {
        return Approach {
            halves: 0,
            nearer: 0,
        };
    }
    Approach {
        halves: halves_to(&motion.range, row),
        nearer: halves_by_modified_tau(motion.range.est, motion.range.rate, row),
    }
}

// The thresholds of the altitude test. Where own aircraft is slow, the reduced time takes the place of tau.
fn row_by_speed(own: &OwnAircraft, motion: &Motion, row: &Row) -> Row
    requires own { AreRows own.now }
    requires row { IsTableRow row.now }
    ensures value { result ≡ row_by_speed own.now motion.now row.now }
    ensures tau { IsBetween (pos 0) (pos 60) result.tau }
    ensures zthr { IsBetween (pos 0) (pos (2 ^ 28)) result.zthr }
{
    if is_slow(motion.own.rate, motion.target.rate) {
        Row {
            tau: own.level.slow_tau,
            dmod: row.dmod,
            zthr: row.zthr,
        }
    } else {
        *row
    }
}

// Whether the vertical miss distance is small.
fn passes_close_in(motion: &Motion, approach: &Approach, row: &Row) -> bool
    requires motion { IsMotion motion.now }
    requires row { IsTableRow row.now }
    requires halves { approach.now.halves ≤ 120 }
    requires nearer { approach.now.nearer ≤ 120 }
    ensures { result ≡ passes_close (height_of motion.now) (height_rate_of motion.now) approach.now row.now }
{
    let height = difference(motion.target.est, motion.own.est);
    let rate = difference(motion.target.rate, motion.own.rate);
    passes_close(height, rate, approach, row)
}

// The altitude test of a resolution advisory.
fn holds_in_altitude(own: &OwnAircraft, motion: &Motion, approach: &Approach, row: &Row) -> bool
    requires own { AreRows own.now }
    requires motion { IsMotion motion.now }
    requires row { IsTableRow row.now }
    requires approach { approach.now ≡ approach_to motion.now row.now }
    requires halves { approach.now.halves ≤ 120 }
    requires nearer { approach.now.nearer ≤ 120 }
    ensures { result ≡ holds_in_altitude own.now motion.now row.now }
{
    is_altitude_hit(motion, &row_by_speed(own, motion, row))
        && passes_close_in(motion, approach, row)
}

// Whether the pair passes far away: at least DMOD.
fn passes_far(motion: &Motion, row: &Row) -> bool
    requires motion { IsMotion motion.now }
    requires row { IsTableRow row.now }
    ensures { result ≡ passes_far motion.now row.now }
{
    let distance = row.dmod.unsigned_abs() / 1024;
    is_far(distance as u16, &motion.square)
}

// The senses that lead through the other's altitude, where own altitude is so far over it.
fn crosses_at(gap: i64) -> BySense
    ensures { result ≡ crosses_at gap }
{
    BySense {
        up: gap <= -HUNDRED_FEET,
        down: HUNDRED_FEET <= gap,
    }
}

// Whether little time is left.
fn is_soon(own: &OwnAircraft, halves: u16) -> bool
    requires own { AreRows own.now }
    ensures { result ≡ is_soon own.now halves }
{
    1 <= halves && u64::from(halves) <= 2 * own.level.increase_tau.unsigned_abs()
}

// Whether an advisory of a sense may increase.
fn hurries_in(own: &OwnAircraft, motion: &Motion, approach: &Kept, sense: Sense) -> bool
    requires own { AreRows own.now }
    requires motion { IsMotion motion.now }
    requires approach { IsApproach motion.now approach.now }
    ensures { result ≡ hurries_in own.now motion.now approach.now.halves sense }
{
    is_soon(own, approach.halves)
        && separation(
            Profile::Two,
            motion,
            approach,
            LATER_RESPONSE,
            sense,
            Strength::Positive,
        ) < TWO_HUNDRED_FEET
}

// Whether both climb or both descend, each with at least 600 ft/min.
fn go_together(a: i64, b: i64) -> bool
    ensures { result ≡ go_together a b }
{
    (FAST <= a && FAST <= b) || (a <= -FAST && b <= -FAST)
}

// How far a sense has the two apart if both keep their rates.
fn held(motion: &Motion, halves: u16, sense: Sense) -> i64
    requires motion { IsMotion motion.now }
    requires halves { halves ≤ 120 }
    ensures { result ≡ held motion.now halves sense }
{
    let approach = approach_at(motion, halves);
    apart(sense, approach.own, approach.target)
}

// Whether an advisory of a sense is in a vertical chase.
fn chases_in(motion: &Motion, halves: u16, sense: Sense) -> bool
    requires motion { IsMotion motion.now }
    requires halves { halves ≤ 120 }
    ensures { result ≡ chases_in motion.now halves sense }
{
    TIME_TO_TURN <= halves
        && (go_together(motion.own.rate, motion.target.rate)
            && held(motion, halves, sense) < HUNDRED_FEET)
}

/// Puts what is shown of the view of an aircraft that is tested and resolved.
pub(crate) fn put_second(
    own: &OwnAircraft,
    motion: &Motion,
    row: &Row,
    before: Option<&Cells>,
    target: u8,
    view: &mut View,
)
    requires own { AreRows own.now }
    requires motion { IsMotion motion.now }
    requires row { IsTableRow row.now }
    requires target { target < CRAFTS }
    ensures { view.new ≡ shown (asks_for (option_copied before.entry) target) (second_view own.now motion.now row.now) }
{
    put_outline(own, motion, row, view);
    if view.threat {
        put_separations(own, motion, view);
        return;
    }
    if asks_for(before, target) {
        put_separations(own, motion, view);
    }
}

// Puts the view without separations, field by field.
fn put_outline(own: &OwnAircraft, motion: &Motion, row: &Row, view: &mut View)
    requires own { AreRows own.now }
    requires motion { IsMotion motion.now }
    requires row { IsTableRow row.now }
    ensures value { view.new ≡ outline_of (second_view own.now motion.now row.now) }
    ensures halves { view.new.halves ≤ 120 }
{
    let approach = approach_to(motion, row);
    put_plain(view, true, shows_traffic(own, motion), true);
    view.lasts = holds_in_range(own, motion, row);
    view.far = passes_far(motion, row);
    view.threat = view.lasts && (!view.far && holds_in_altitude(own, motion, &approach, row));
    view.climbs = own.climbs;
    view.descends = own.descends;
    view.descends_faster = own.descends_faster;
    view.side = side_of(motion);
    view.gap = difference(motion.own.est, motion.target.est);
    view.crosses = crosses_at(view.gap);
    view.halves = approach.halves;
    view.chases = BySense {
        up: chases_in(motion, approach.halves, Sense::Up),
        down: chases_in(motion, approach.halves, Sense::Down),
    };
    view.settled_at = SETTLED_AT;
    view.looks_ahead = true;
    view.alim = own.level.alim;
    view.enough = TWO_HUNDRED_FEET;
    view.rate = motion.own.rate;
}

// Puts the separations into a view, and what follows from them.
fn put_separations(own: &OwnAircraft, motion: &Motion, view: &mut View)
    requires own { AreRows own.now }
    requires motion { IsMotion motion.now }
    requires halves { view.old.halves ≤ 120 }
    ensures { view.new ≡ with_separations own.now motion.now view.old }
{
    let approach = approach_at(motion, view.halves);
    view.first = separations(Profile::Two, motion, &approach, FIRST_RESPONSE);
    view.later = separations(Profile::Two, motion, &approach, LATER_RESPONSE);
    view.hurries = BySense {
        up: hurries_in(own, motion, &approach, Sense::Up),
        down: hurries_in(own, motion, &approach, Sense::Down),
    };
}
