// Where things stand on the page.
ghost use Rattle.std.specs.Prelude.{◌≡◌, ◌*◌, ◌<◌, ◌≤◌, ◌^◌, length};
ghost use Rattle.picture.specs.Layout.{IsLane, active_among, course_area, frame_of, lane_in, lane_of, lane_pitch, lanes_height, page_height, panels_top, plot_area, plot_bottom, tall_in};

use acas_base::CraftSpec;
use page_marks::area_at;
use svg_text::{Area, Frame};

/// How wide the page is.
const PAGE_WIDTH: u32 = 20_000;

// Where the lanes begin.
const PLOT_TOP: u32 = 5_100;

/// How high the legend is.
pub(crate) const LEGEND_HEIGHT: u32 = 2_300;

/// Where the box of the altitudes begins.
pub(crate) const COURSE_TOP: u32 = 1_500;

/// How high it is.
pub(crate) const COURSE_HEIGHT: u32 = 3_200;

/// Where it ends.
pub(crate) const COURSE_BOTTOM: u32 = 4_700;

/// A lane: where its bars end, how high its tall bars are, and how far it is from these to those of the next lane.
#[derive(Clone, Copy)]
pub(crate) struct Lane {
    pub base: u32,
    pub tall: u32,
    pub room: u32,
}

/// How many aircraft of a list advise.
pub(crate) fn active_among(crafts: &[CraftSpec]) -> u32
    requires { length crafts.now ≤ 16 }
    ensures value { result ≡ active_among crafts.now }
    ensures few { result ≤ 16 }
{
    crafts.iter().filter(|craft| craft.kind.is_active()).count() as u32
}

// How far it is from one lane to the next one, where there are so many.
#[tactic(auto, unfolding(crate::specs::Layout::lane_pitch))]
fn lane_pitch(lanes: u32) -> u32
    requires { lanes ≤ 16 }
    ensures value { result ≡ lane_pitch lanes }
    ensures least { 560 ≤ result }
    ensures most { result ≤ 1200 }
    ensures all { result * lanes ≤ 8960 }
{
    if lanes <= 2 {
        1_200
    } else if lanes <= 4 {
        960
    } else if lanes <= 8 {
        740
    } else {
        560
    }
}

// How high so many lanes are.
#[tactic(auto, unfolding(crate::specs::Layout::lanes_height))]
fn lanes_height(lanes: u32) -> u32
    requires { lanes ≤ 16 }
    ensures value { result ≡ lanes_height lanes }
    ensures most { result ≤ 8960 }
{
    lane_pitch(lanes) * lanes
}

// How high tall bars are.
#[tactic(auto, unfolding(crate::specs::Layout::tall_in))]
fn tall_in(pitch: u32) -> u32
    requires { 560 ≤ pitch }
    ensures value { result ≡ tall_in pitch }
    ensures least { 320 ≤ result }
    ensures most { result ≤ 400 }
{
    if pitch < 640 { pitch - 240 } else { 400 }
}

// For the proof: the bounds of a product.
fn product(pitch: u32, number: u32) -> u32
    requires pitch { pitch ≤ 1200 }
    requires number { number ≤ 16 }
    ensures value { result ≡ pitch * number }
    ensures most { result ≤ 19200 }
{
    pitch * number
}

// A lane by its number.
#[tactic(auto, unfolding(crate::specs::Layout::lane_in))]
fn lane_in(pitch: u32, number: u32) -> Lane
    requires least { 560 ≤ pitch }
    requires most { pitch ≤ 1200 }
    requires number { number ≤ 16 }
    ensures value { result ≡ lane_in pitch number }
    ensures placed { IsLane result }
{
    let tall = tall_in(pitch);
    let room = pitch - tall;
    Lane {
        base: 5_150 + room / 2 + tall + product(pitch, number),
        tall,
        room,
    }
}

/// The lane of an aircraft: it stands below those of the aircraft before it that advise.
pub(crate) fn lane_of(crafts: &[CraftSpec], own: usize) -> Lane
    requires few { length crafts.now ≤ 16 }
    requires own { own < length crafts.now }
    ensures value { result ≡ lane_of crafts.now own }
    ensures placed { IsLane result }
{
    let pitch = lane_pitch(active_among(crafts));
    lane_in(pitch, active_among(&crafts[..own]))
}

/// Where the lanes end.
pub(crate) fn plot_bottom(lanes: u32) -> u32
    requires { lanes ≤ 16 }
    ensures value { result ≡ plot_bottom lanes }
    ensures most { result ≤ 14160 }
{
    5_200 + lanes_height(lanes)
}

/// The box in which the lanes stand.
pub(crate) fn plot_area(lanes: u32) -> Area
    requires { lanes ≤ 16 }
    ensures { result ≡ plot_area lanes }
{
    area_at(2_000, PLOT_TOP, 15_800, 100 + lanes_height(lanes))
}

/// The box of the altitudes.
pub(crate) fn course_area() -> Area
    ensures { result ≡ course_area }
{
    area_at(2_000, COURSE_TOP, 15_800, COURSE_HEIGHT)
}

/// Where the panels of a pair begin.
pub(crate) fn panels_top(lanes: u32) -> u32
    requires { lanes ≤ 16 }
    ensures value { result ≡ panels_top lanes }
    ensures most { result ≤ 15110 }
{
    6_150 + lanes_height(lanes)
}

// How high the page is without panels, without the plan and without a list of marks.
fn page_height(lanes: u32) -> u32
    requires { lanes ≤ 16 }
    ensures value { result ≡ page_height lanes }
    ensures most { result ≤ 17410 }
{
    8_450 + lanes_height(lanes)
}

/// The page, with so much more for panels, for the plan and for a list of marks.
pub(crate) fn frame_of(lanes: u32, below: u32) -> Frame
    requires lanes { lanes ≤ 16 }
    requires below { below ≤ 30000 }
    ensures { result ≡ frame_of lanes below }
{
    Frame {
        width: PAGE_WIDTH,
        height: page_height(lanes) + below,
        window: plot_area(lanes),
    }
}
