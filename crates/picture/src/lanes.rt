// The lanes of the aircraft that advise.
ghost use Rattle.std.specs.Prelude.{◌≡◌, ◌<◌, ◌≤◌, None, length};
ghost use Rattle.std.specs.List.{flat_map};
ghost use Rattle.acas_text.specs.Hex.{hex};
ghost use Rattle.equal_rows.specs.Rows.{rows_at};
ghost use Rattle.picture.specs.Bars.{bars, craft_marks, lane_head, lane_marks, lanes_marks, row_marks};
ghost use Rattle.picture.specs.Layout.{IsLane};
ghost use Rattle.picture.specs.Shown.{goes_on, is_shown};
ghost use Rattle.svg_text.specs.declared.drawing.TheConstants.{LABEL_BYTES};

use crate::bars::put_bar;
use crate::layout::{Lane, lane_of};
use crate::shown::{begins, last_from, shown_in};
use acas_base::Address;
use acas_text::Line;
use air_journal::AirState;
use equal_rows::Row;
use labels::Labels;
use page_marks::{grid, point_at, put_line, put_words};
use plot_axes::TimeAxis;
use svg_text::{Anchor, Drawing, Shape, Weight};

// Puts the bar of the row that begins with a cycle, if one does.
fn put_begun<D: Drawing>(
    state: &AirState,
    axis: TimeAxis,
    own: u8,
    lane: Lane,
    address: Address,
    cycle: u16,
    drawing: &mut D,
)
    requires axis { axis.cycles ≡ state.now.encounter.cycles }
    requires lane { IsLane lane }
    requires first { 1 ≤ cycle }
    requires last { cycle ≤ axis.cycles }
    ensures { D.drew drawing.old drawing.new (flat_map (row_marks state.now.encounter state.now.journal own lane address) (rows_at (is_shown state.now.journal own) (goes_on state.now.journal own) state.now.encounter.cycles cycle)) }
{
    if begins(state, own, cycle) {
        let row = Row {
            first: cycle,
            last: last_from(state, own, cycle),
        };
        put_bar(
            axis,
            lane,
            address,
            &shown_in(state, own, cycle),
            row,
            drawing,
        );
    }
}

// Puts the bars of an aircraft.
fn put_bars<D: Drawing>(
    state: &AirState,
    axis: TimeAxis,
    own: u8,
    lane: Lane,
    address: Address,
    drawing: &mut D,
)
    requires axis { axis.cycles ≡ state.now.encounter.cycles }
    requires lane { IsLane lane }
    ensures { D.drew drawing.old drawing.new (bars state.now.encounter state.now.journal own lane address) }
{
    for cycle in 1..axis.cycles + 1 {
        put_begun(state, axis, own, lane, address, cycle, drawing);
    }
}

/// The text of an address.
pub(crate) fn address_text(address: Address) -> Line
    ensures text { result ≡ hex 6 address }
    ensures short { length result ≤ LABEL_BYTES }
{
    let mut line = Line::new();
    line.address(address.value());
    line
}

// Puts the line of a lane, and what its aircraft is called.
fn put_lane_head<D: Drawing>(lane: Lane, name: &Line, drawing: &mut D)
    requires lane { IsLane lane }
    requires name { length name.now ≤ LABEL_BYTES }
    ensures { D.drew drawing.old drawing.new (lane_head lane name.now) }
{
    let line = Shape::Segment {
        from: point_at(2_000, lane.base),
        to: point_at(17_800, lane.base),
    };
    put_line(line, grid(), drawing);
    put_words(
        point_at(1_880, lane.base),
        300,
        Anchor::End,
        Weight::Regular,
        name,
        drawing,
    );
}

fn put_lane<D: Drawing>(
    labels: &Labels<'_>,
    state: &AirState,
    axis: TimeAxis,
    own: u8,
    lane: Lane,
    address: Address,
    drawing: &mut D,
)
    requires axis { axis.cycles ≡ state.now.encounter.cycles }
    requires lane { IsLane lane }
    ensures { D.drew drawing.old drawing.new (lane_marks labels.now state.now.encounter state.now.journal own lane address) }
{
    put_lane_head(lane, &labels.name(address), drawing);
    put_bars(state, axis, own, lane, address, drawing);
}

// Puts the lane of an aircraft, where it advises.
#[tactic(auto, unfolding(crate::specs::Bars::craft_marks))]
fn put_craft<D: Drawing>(
    labels: &Labels<'_>,
    state: &AirState,
    axis: TimeAxis,
    own: usize,
    drawing: &mut D,
)
    requires axis { axis.cycles ≡ state.now.encounter.cycles }
    requires own { own < length state.now.encounter.crafts }
    ensures { D.drew drawing.old drawing.new (craft_marks labels.now state.now.encounter state.now.journal own) }
{
    state.legal_law();
    let crafts = state.enc().crafts();
    let craft = &crafts[own];
    if craft.kind.is_active() {
        put_lane(
            labels,
            state,
            axis,
            own as u8,
            lane_of(crafts, own),
            craft.address,
            drawing,
        );
    }
}

/// Puts all lanes.
pub(crate) fn put_lanes<D: Drawing>(
    labels: &Labels<'_>,
    state: &AirState,
    axis: TimeAxis,
    drawing: &mut D,
)
    requires axis { axis.cycles ≡ state.now.encounter.cycles }
    ensures { D.drew drawing.old drawing.new (lanes_marks labels.now state.now.encounter state.now.journal) }
{
    for own in 0..state.enc().crafts().len() {
        put_craft(labels, state, axis, own, drawing);
    }
}
