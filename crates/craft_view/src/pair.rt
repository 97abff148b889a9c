// The view of one other aircraft.
ghost use Rattle.std.specs.Prelude.{◌≡◌, ◌<◌, false, option_copied, replicate};
ghost use Rattle.acas_base.specs.declared.TheConstants.{CRAFTS};
ghost use Rattle.craft_view.specs.Hits.{is_hit};
ghost use Rattle.craft_view.specs.Own.{AreRows};
ghost use Rattle.craft_view.specs.KnownTracks.{IsMotion};
ghost use Rattle.craft_view.specs.Views.{all_but, asks_for, first_view, no_view, outline_of, plain_view, resolving_view, shown, shows_traffic, side_of, tested_view, view_by};
ghost use Rattle.sens_table.specs.Levels.{IsTableRow};

use crate::hits::is_hit;
use crate::motion::{Motion, difference, motion_of};
use crate::own::OwnAircraft;
use crate::profile_two::{put_second, shows_traffic as shows_traffic_two};
use crate::separations::{FIRST_RESPONSE, LATER_RESPONSE, approach_at, halves_to, separations};
use crate::tracks::Tracks;
use acas_base::{BySense, CRAFTS, Cells, Picture, Profile, Row, Sense, Seps, View};
use alt_track::AltTrack;

// Whether the separations to an aircraft are asked for after these cells.
pub(crate) fn asks_for(before: Option<&Cells>, target: u8) -> bool
    requires { target < CRAFTS }
    ensures { result ≡ asks_for (option_copied before.entry) target }
{
    match before {
        Some(cells) => cells.list[usize::from(target)].has_advisory(),
        None => true,
    }
}

// The age, in cycles, from which on an advisory may weaken.
const SETTLED_AT: u16 = 5;

// Puts the view of an aircraft by its tracks and the track of own altitude. Each case puts its own view, since a view
// that the cases share is moved once more.
#[tactic(auto, unfolding(crate::specs::Views::view_by))]
pub(crate) fn put_view(
    own: &OwnAircraft,
    altitude: &AltTrack,
    tracks: &Tracks,
    before: Option<&Cells>,
    target: u8,
    view: &mut View,
)
    requires rows { AreRows own.now }
    requires target { target < CRAFTS }
    ensures { view.new ≡ shown (asks_for (option_copied before.entry) target) (view_by own.now altitude.now tracks.now) }
{
    match motion_of(altitude, tracks) {
        Some(motion) => put_tested(own, &motion, before, target, view),
        None => put_plain(view, false, false, own.resolution.is_some()),
    }
}

// The view of what isn't there.
pub(crate) fn no_view() -> View
    ensures { result ≡ no_view }
{
    plain_view(false, false, false)
}

/// A picture of nothing.
pub fn no_picture() -> Picture
    ensures { result.views ≡ replicate CRAFTS no_view }
{
    Picture {
        own: 0,
        cycle: 0,
        views: [no_view(); CRAFTS],
    }
}

fn put_tested(
    own: &OwnAircraft,
    motion: &Motion,
    before: Option<&Cells>,
    target: u8,
    view: &mut View,
)
    requires own { AreRows own.now }
    requires motion { IsMotion motion.now }
    requires target { target < CRAFTS }
    ensures { view.new ≡ shown (asks_for (option_copied before.entry) target) (tested_view own.now motion.now) }
{
    match own.resolution {
        Some(row) => put_resolving(own, motion, &row, before, target, view),
        None => put_plain(view, true, shows_traffic(own, motion), false),
    }
}

// Whether the tests of a traffic advisory hold.
fn shows_traffic(own: &OwnAircraft, motion: &Motion) -> bool
    requires own { AreRows own.now }
    requires motion { IsMotion motion.now }
    ensures { result ≡ shows_traffic own.now motion.now }
{
    match own.profile {
        Profile::One => is_hit(motion, &own.level.ta),
        Profile::Two => shows_traffic_two(own, motion),
    }
}

fn put_resolving(
    own: &OwnAircraft,
    motion: &Motion,
    row: &Row,
    before: Option<&Cells>,
    target: u8,
    view: &mut View,
)
    requires own { AreRows own.now }
    requires motion { IsMotion motion.now }
    requires row { IsTableRow row.now }
    requires target { target < CRAFTS }
    ensures { view.new ≡ shown (asks_for (option_copied before.entry) target) (resolving_view own.now motion.now row.now) }
{
    match own.profile {
        Profile::One => put_first(own, motion, row, before, target, view),
        Profile::Two => put_second(own, motion, row, before, target, view),
    }
}

// The same in profile 1.
fn put_first(
    own: &OwnAircraft,
    motion: &Motion,
    row: &Row,
    before: Option<&Cells>,
    target: u8,
    view: &mut View,
)
    requires own { AreRows own.now }
    requires motion { IsMotion motion.now }
    requires row { IsTableRow row.now }
    requires target { target < CRAFTS }
    ensures { view.new ≡ shown (asks_for (option_copied before.entry) target) (first_view own.now motion.now row.now) }
{
    let threat = is_hit(motion, row);
    if threat {
        put_whole(own, motion, row, threat, view);
        return;
    }
    if asks_for(before, target) {
        put_whole(own, motion, row, threat, view);
    } else {
        put_outline(own, motion, row, view);
    }
}

// Puts a view with its separations. It is a function of its own, since one clears its memory for a view at its start.
fn put_whole(own: &OwnAircraft, motion: &Motion, row: &Row, threat: bool, view: &mut View)
    requires own { AreRows own.now }
    requires motion { IsMotion motion.now }
    requires row { IsTableRow row.now }
    requires threat { threat ≡ is_hit motion.now row.now }
    ensures { view.new ≡ first_view own.now motion.now row.now }
{
    *view = first_view(own, motion, row, threat);
}

// Puts the view of what is no threat, with no separations, field by field.
fn put_outline(own: &OwnAircraft, motion: &Motion, row: &Row, view: &mut View)
    requires own { AreRows own.now }
    requires motion { IsMotion motion.now }
    requires row { IsTableRow row.now }
    requires no_threat { is_hit motion.now row.now ≡ false }
    ensures { view.new ≡ outline_of (first_view own.now motion.now row.now) }
{
    put_plain(view, true, is_hit(motion, &own.level.ta), true);
    view.climbs = own.climbs;
    view.descends = own.descends;
    view.descends_faster = own.descends_faster;
    view.side = side_of(motion);
    view.crosses = all_but(view.side);
    view.halves = halves_to(&motion.range, row);
    view.settled_at = SETTLED_AT;
    view.alim = own.level.alim;
    view.enough = own.level.alim;
    view.gap = difference(motion.own.est, motion.target.est);
    view.rate = motion.own.rate;
}

fn first_view(own: &OwnAircraft, motion: &Motion, row: &Row, threat: bool) -> View
    requires own { AreRows own.now }
    requires motion { IsMotion motion.now }
    requires row { IsTableRow row.now }
    requires threat { threat ≡ is_hit motion.now row.now }
    ensures { result ≡ first_view own.now motion.now row.now }
{
    let approach = approach_at(motion, halves_to(&motion.range, row));
    let side = side_of(motion);
    View {
        tested: true,
        traffic: is_hit(motion, &own.level.ta),
        resolves: true,
        threat,
        lasts: threat,
        far: false,
        climbs: own.climbs,
        descends: own.descends,
        descends_faster: own.descends_faster,
        side,
        crosses: all_but(side),
        halves: approach.halves,
        hurries: BySense::both(),
        chases: BySense::neither(),
        settled_at: SETTLED_AT,
        looks_ahead: false,
        alim: own.level.alim,
        enough: own.level.alim,
        gap: difference(motion.own.est, motion.target.est),
        rate: motion.own.rate,
        first: separations(Profile::One, motion, &approach, FIRST_RESPONSE),
        later: separations(Profile::One, motion, &approach, LATER_RESPONSE),
    }
}

// The sense that doesn't cross the other's altitude.
pub(crate) fn side_of(motion: &Motion) -> Sense
    ensures { result ≡ side_of motion.now }
{
    if motion.target.est <= motion.own.est {
        Sense::Up
    } else {
        Sense::Down
    }
}

// Each sense but one.
fn all_but(sense: Sense) -> BySense
    ensures { result ≡ all_but sense }
{
    match sense {
        Sense::Up => BySense {
            up: false,
            down: true,
        },
        Sense::Down => BySense {
            up: true,
            down: false,
        },
    }
}

// Puts the view of what isn't there.
pub(crate) fn put_no_view(view: &mut View)
    ensures { view.new ≡ no_view }
{
    put_plain(view, false, false, false);
}

// Puts a plain view, field by field: one that is made first would have to be moved.
pub(crate) fn put_plain(view: &mut View, tested: bool, traffic: bool, resolves: bool)
    ensures { view.new ≡ plain_view tested traffic resolves }
{
    view.tested = tested;
    view.traffic = traffic;
    view.resolves = resolves;
    view.threat = false;
    view.lasts = false;
    view.far = false;
    view.climbs = false;
    view.descends = false;
    view.descends_faster = false;
    view.side = Sense::Up;
    view.crosses = BySense::neither();
    view.halves = 0;
    view.hurries = BySense::neither();
    view.chases = BySense::neither();
    view.settled_at = 0;
    view.looks_ahead = false;
    view.alim = 0;
    view.enough = 0;
    view.gap = 0;
    view.rate = 0;
    view.first.up = [0; 6];
    view.first.down = [0; 6];
    view.later.up = [0; 6];
    view.later.down = [0; 6];
}

fn plain_view(tested: bool, traffic: bool, resolves: bool) -> View
    ensures { result ≡ plain_view tested traffic resolves }
{
    let zeros = Seps {
        up: [0; 6],
        down: [0; 6],
    };
    View {
        tested,
        traffic,
        resolves,
        threat: false,
        lasts: false,
        far: false,
        climbs: false,
        descends: false,
        descends_faster: false,
        side: Sense::Up,
        crosses: BySense::neither(),
        halves: 0,
        hurries: BySense::neither(),
        chases: BySense::neither(),
        settled_at: 0,
        looks_ahead: false,
        alim: 0,
        enough: 0,
        gap: 0,
        rate: 0,
        first: zeros,
        later: zeros,
    }
}
