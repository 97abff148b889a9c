// The picture.
ghost use Rattle.std.specs.Prelude.{◌≡◌, ◌∷◌, [], ◌≤◌, IfSome, length};
ghost use Rattle.acas_io.specs.Stream.{Puts};
ghost use Rattle.flight.specs.Inside.{IsInside};
ghost use Rattle.pair_panels.specs.Nearest.{IsPair};
ghost use Rattle.picture.specs.Altitude.{altitude_marks};
ghost use Rattle.picture.specs.Bands.{bands_marks};
ghost use Rattle.picture.specs.Bars.{lanes_marks};
ghost use Rattle.picture.specs.Head.{head_marks, title_text};
ghost use Rattle.picture.specs.Heard.{heard_marks};
ghost use Rattle.picture.specs.Legend.{legend_marks};
ghost use Rattle.picture.specs.MarkedDrawn.{lines_marks, list_marks};
ghost use Rattle.picture.specs.MishapsDrawn.{messages_marks};
ghost use Rattle.picture.specs.Panels.{approach_of, panel_marks};
ghost use Rattle.picture.specs.Picture.{picture_text, section};
ghost use Rattle.picture.specs.Time.{time_marks};
ghost use Rattle.plan_panel.specs.Marks.{plan_marks};
ghost use Rattle.svg_text.specs.Documents.{section_lines};
ghost use Rattle.svg_text.specs.declared.drawing.TheConstants.{LABEL_BYTES};

use crate::altitude::put_altitude;
use crate::bands::put_bands;
use crate::head::{description, put_head, title_text};
use crate::heard::put_heard;
use crate::lanes::put_lanes;
use crate::layout::{LEGEND_HEIGHT, active_among, frame_of, panels_top};
use crate::legend::put_legend;
use crate::marked_drawn::{list_height, put_lines, put_list};
use crate::messages::put_messages;
use crate::panels::{approach_of, panels_height, put_panels};
use crate::time::{axis_of, put_time};
use acas_base::Encounter;
use acas_io::{Failed, Sink};
use acas_lines::{LineSink, Text, write_text};
use acas_text::Line;
use air_journal::AirState;
use deliveries::Deliveries;
use labels::Labels;
use pair_panels::{NearPair, nearest_pair};
use plan_panel::{PLAN_HEIGHT, put_plan};
use plot_axes::TimeAxis;
use svg_text::{Clip, begin_drawing, begin_section, end_drawing, end_section};

// ---- sections

fn put_head_section<S: LineSink>(
    labels: &Labels<'_>,
    state: &AirState,
    title: &Line,
    pair: Option<NearPair>,
    axis: TimeAxis,
    sink: &mut S,
)
    requires title { title.now ≡ title_text state.now.encounter }
    requires short { length title.now ≤ LABEL_BYTES }
    requires pair { IfSome pair (IsPair state.now.encounter) }
    requires axis { axis.cycles ≡ state.now.encounter.cycles }
    requires start { axis.start ≡ labels.now.start }
    ensures { S.took sink.old sink.new (section_lines (section (head_marks labels.now state.now.encounter state.now.journal pair))) }
{
    begin_section(sink, Clip::Whole);
    put_head(labels, state, title, pair, axis, sink);
    end_section(sink);
}

fn put_time_section<S: LineSink>(axis: TimeAxis, lanes: u32, sink: &mut S)
    requires { lanes ≤ 16 }
    ensures { S.took sink.old sink.new (section_lines (section (time_marks axis.cycles axis.start lanes))) }
{
    begin_section(sink, Clip::Whole);
    put_time(axis, lanes, sink);
    end_section(sink);
}

fn put_lines_section<S: LineSink>(labels: &Labels<'_>, axis: TimeAxis, lanes: u32, sink: &mut S)
    requires { lanes ≤ 16 }
    ensures { S.took sink.old sink.new (section_lines (section (lines_marks labels.now axis.cycles lanes))) }
{
    begin_section(sink, Clip::Whole);
    put_lines(labels, axis, lanes, sink);
    end_section(sink);
}

fn put_bands_section<S: LineSink>(state: &AirState, axis: TimeAxis, sink: &mut S)
    requires { axis.cycles ≡ state.now.encounter.cycles }
    ensures { S.took sink.old sink.new (section_lines (section (bands_marks state.now.encounter state.now.journal))) }
{
    begin_section(sink, Clip::Whole);
    put_bands(state, axis, sink);
    end_section(sink);
}

fn put_altitude_section<S: LineSink>(
    labels: &Labels<'_>,
    state: &AirState,
    axis: TimeAxis,
    sink: &mut S,
)
    requires { axis.cycles ≡ state.now.encounter.cycles }
    ensures { S.took sink.old sink.new (section_lines (section (altitude_marks labels.now state.now.encounter state.now.journal))) }
{
    begin_section(sink, Clip::Whole);
    put_altitude(labels, state, axis, sink);
    end_section(sink);
}

fn put_messages_section<S: LineSink>(deliveries: &Deliveries, axis: TimeAxis, sink: &mut S)
    requires axis { axis.cycles ≡ deliveries.now.encounter.cycles }
    ensures { S.took sink.old sink.new (section_lines (section (messages_marks deliveries.now.encounter deliveries.now.journal))) }
{
    begin_section(sink, Clip::Whole);
    put_messages(deliveries, axis, sink);
    end_section(sink);
}

fn put_lanes_section<S: LineSink>(
    labels: &Labels<'_>,
    state: &AirState,
    axis: TimeAxis,
    sink: &mut S,
)
    requires axis { axis.cycles ≡ state.now.encounter.cycles }
    ensures { S.took sink.old sink.new (section_lines (section (lanes_marks labels.now state.now.encounter state.now.journal))) }
{
    begin_section(sink, Clip::Whole);
    put_lanes(labels, state, axis, sink);
    end_section(sink);
}

fn put_panels_section<S: LineSink>(
    top: u32,
    labels: &Labels<'_>,
    encounter: &Encounter,
    pair: Option<NearPair>,
    axis: TimeAxis,
    sink: &mut S,
)
    requires top { top ≤ 30000 }
    requires pair { IfSome pair (IsPair encounter.now) }
    requires inside { IsInside encounter.now }
    requires axis { axis.cycles ≡ encounter.now.cycles }
    requires start { axis.start ≡ labels.now.start }
    ensures { S.took sink.old sink.new (section_lines (section (panel_marks top labels.now encounter.now pair))) }
{
    begin_section(sink, Clip::Whole);
    put_panels(top, labels, encounter, pair, axis, sink);
    end_section(sink);
}

fn put_plan_section<S: LineSink>(
    top: u32,
    labels: &Labels<'_>,
    encounter: &Encounter,
    pair: Option<NearPair>,
    axis: TimeAxis,
    sink: &mut S,
)
    requires top { top ≤ 40000 }
    requires pair { IfSome pair (IsPair encounter.now) }
    requires axis { axis.cycles ≡ encounter.now.cycles }
    requires start { axis.start ≡ labels.now.start }
    ensures { S.took sink.old sink.new (section_lines (section (plan_marks top encounter.now labels.now.start labels.now (approach_of pair)))) }
{
    begin_section(sink, Clip::Whole);
    let nearest = approach_of(encounter, pair);
    put_plan(top, encounter, axis, labels, nearest, sink);
    end_section(sink);
}

fn put_heard_section<S: LineSink>(top: u32, labels: &Labels<'_>, state: &AirState, sink: &mut S)
    requires { top ≤ 40000 }
    ensures { S.took sink.old sink.new (section_lines (section (heard_marks top state.now.encounter state.now.journal labels.now))) }
{
    begin_section(sink, Clip::Whole);
    put_heard(top, state, labels, sink);
    end_section(sink);
}

fn put_legend_section<S: LineSink>(top: u32, sink: &mut S)
    requires { top ≤ 38500 }
    ensures { S.took sink.old sink.new (section_lines (section (legend_marks top))) }
{
    begin_section(sink, Clip::Whole);
    put_legend(top, sink);
    end_section(sink);
}

fn put_list_section<S: LineSink>(top: u32, labels: &Labels<'_>, axis: TimeAxis, sink: &mut S)
    requires top { top ≤ 41000 }
    requires axis { axis.start ≡ labels.now.start }
    ensures { S.took sink.old sink.new (section_lines (section (list_marks top labels.now axis.cycles))) }
{
    begin_section(sink, Clip::Whole);
    put_list(top, labels, axis, sink);
    end_section(sink);
}

// ---- all of it

/// The picture of a state, as SVG: a head, an axis of time, the altitude of each aircraft with bands where it
/// advises, a lane for each aircraft that advises, the distances of the two aircraft that come nearest and the
/// seconds that the tests of one of them need, the plan, what the crews heard, and a legend. In a lane stands a bar
/// for each longest row of cycles with one word of the report, which isn't CLEAR, and one corrective mark. Between
/// the lanes stands an arrow for each take of a message that changes the complement in force, a cross for each
/// maximal row of lost messages of two aircraft, and a hollow head for each one of spoilt messages. The state comes
/// with what became of its messages.
///
/// The labels give the clock of the axis of time, what aircraft are called at the lanes and the lines of altitudes, and
/// marks: each mark of a cycle of the run has a line and a letter there, and a row in a list below the legend.
#[derive(Drop)]
pub struct Picture<'a> {
    pub deliveries: &'a Deliveries,
    pub labels: &'a Labels<'a>,
}

impl Text for Picture<'_> {
    ghost use Rattle.picture.specs.Picture.{picture_lines};

    ghost lines = { λ p. picture_lines p.labels.now p.deliveries.now.encounter p.deliveries.now.journal };

    fn put<S: LineSink>(&self, sink: &mut S) {
        let deliveries = self.deliveries;
        let labels = self.labels;
        let state = deliveries.state();
        state.legal_law();
        let encounter = state.enc();
        let lanes = active_among(encounter.crafts());
        let axis = axis_of(labels, encounter);
        let title = title_text(encounter);
        let pair = nearest_pair(encounter);
        let panels = panels_height(encounter.profile(), pair);
        let below = panels + PLAN_HEIGHT;
        let frame = frame_of(lanes, below + list_height(labels, axis.cycles));
        begin_drawing(sink, &frame, &title, &description());
        put_head_section(labels, state, &title, pair, axis, sink);
        put_time_section(axis, lanes, sink);
        put_lines_section(labels, axis, lanes, sink);
        put_bands_section(state, axis, sink);
        put_altitude_section(labels, state, axis, sink);
        put_messages_section(deliveries, axis, sink);
        put_lanes_section(labels, state, axis, sink);
        let top = panels_top(lanes);
        put_panels_section(top, labels, encounter, pair, axis, sink);
        let plan = top + panels;
        put_plan_section(plan, labels, encounter, pair, axis, sink);
        put_heard_section(plan, labels, state, sink);
        let legend = plan + PLAN_HEIGHT;
        put_legend_section(legend, sink);
        put_list_section(legend + LEGEND_HEIGHT, labels, axis, sink);
        end_drawing(sink);
    }
}

/// Writes the [`Picture`] of a state. It takes no memory.
///
/// `Failed` comes only where the sink's count of faults rose; what was written then is a front of the text.
pub fn write<K: Sink>(
    deliveries: &Deliveries,
    labels: &Labels<'_>,
    sink: &mut K,
) -> Result<(), Failed>
    ensures { Puts (K.written sink.old) (K.written sink.new) (K.faults sink.old) (K.faults sink.new) (picture_text labels.now deliveries.now.encounter deliveries.now.journal) result }
{
    write_text(&Picture { deliveries, labels }, sink)
}
