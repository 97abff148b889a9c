// The head of the page.
ghost use Rattle.std.specs.Prelude.{◌≡◌, ◌-◌, ◌<◌, ◌≤◌, ◌^◌, IfSome, length};
ghost use Rattle.air_journal.specs.EntryRefs.{entry_of};
ghost use Rattle.pair_panels.specs.Nearest.{IsPair};
ghost use Rattle.picture.specs.Head.{count_of, counted, crafts_text, description, head_marks, is_same_kind, is_send, nearest_marks, number_text, sent_in, sent_text, title_marks, title_text};
ghost use Rattle.svg_text.specs.declared.drawing.TheConstants.{LABEL_BYTES};

use acas_base::{CraftSpec, Encounter, Kind};
use acas_lines::fixed_line;
use acas_text::Line;
use air_journal::{AirState, EntryRef};
use labels::Labels;
use page_marks::{point_at, put_words};
use pair_panels::{NearPair, put_headline};
use plot_axes::TimeAxis;
use svg_text::{Anchor, Drawing, Weight};

fn is_same_kind(kind: Kind, other: Kind) -> bool
    ensures { result ≡ is_same_kind kind other }
{
    match kind {
        Kind::Ra => matches!(other, Kind::Ra),
        Kind::Ta => matches!(other, Kind::Ta),
        Kind::Xpdr => matches!(other, Kind::Xpdr),
    }
}

// How many aircraft there are of a kind.
fn count_of(kind: Kind, crafts: &[CraftSpec]) -> u16
    requires { length crafts.now ≤ 16 }
    ensures { result ≡ count_of kind crafts.now }
{
    crafts
        .iter()
        .filter(|craft| is_same_kind(kind, craft.kind))
        .count() as u16
}

// How many aircraft there are.
fn number_of(crafts: &[CraftSpec]) -> u16
    requires { length crafts.now ≤ 16 }
    ensures { result ≡ length crafts.now }
{
    crafts.len() as u16
}

#[tactic(auto, unfolding(crate::specs::Head::number_text))]
fn number_text(number: u16) -> Line
    ensures text { result ≡ number_text number }
    ensures short { length result ≤ 29 }
{
    let mut line = Line::new();
    line.text("Encounter of ");
    line.u16(number);
    line.text(" aircraft (");
    line
}

// How many aircraft there are, and how many of each kind.
#[tactic(auto, unfolding(crate::specs::Head::crafts_text))]
fn crafts_text(crafts: &[CraftSpec]) -> Line
    requires { length crafts.now ≤ 16 }
    ensures text { result ≡ crafts_text crafts.now }
    ensures short { length result ≤ 63 }
{
    let mut line = number_text(number_of(crafts));
    line.u16(count_of(Kind::Ra, crafts));
    line.text(" RA, ");
    line.u16(count_of(Kind::Ta, crafts));
    line.text(" TA, ");
    line.u16(count_of(Kind::Xpdr, crafts));
    line.text(" XPDR), ");
    line
}

/// How many aircraft there are, how many of each kind, and how many cycles.
#[tactic(auto, unfolding(crate::specs::Head::title_text))]
pub(crate) fn title_text(encounter: &Encounter) -> Line
    requires { length encounter.now.crafts ≤ 16 }
    ensures text { result ≡ title_text encounter.now }
    ensures short { length result ≤ LABEL_BYTES }
{
    let mut line = crafts_text(encounter.crafts());
    line.u16(encounter.cycles());
    line.text(" cycles");
    line
}

/// What readers of screens are told.
pub(crate) fn description() -> Line
    ensures text { result ≡ description }
    ensures short { length result ≤ LABEL_BYTES }
{
    fixed_line(
        "The traffic and resolution advisories of each aircraft against time, a row for each aircraft.",
    )
}

fn is_send(entry: &EntryRef<'_>) -> bool
    ensures { result ≡ is_send (entry_of entry.now) }
{
    match *entry {
        EntryRef::Commit { .. } => false,
        EntryRef::Send { .. } => true,
        EntryRef::Take { .. } => false,
    }
}

// The count with one entry more.
fn counted(sent: u32, entry: &EntryRef<'_>) -> u32
    requires { sent < 2 ^ 32 - 1 }
    ensures { result ≡ counted sent (entry_of entry.now) }
{
    if is_send(entry) { sent + 1 } else { sent }
}

// How many messages were sent.
fn sent_in(state: &AirState) -> u32
    ensures { result ≡ sent_in state.now.journal }
{
    state.legal_law();
    let mut sent = 0;
    for at in 0..state.count() {
        let Some(entry) = state.entry_ref(at) else {
            return sent;
        };
        sent = counted(sent, &entry);
    }
    sent
}

#[tactic(auto, unfolding(crate::specs::Head::sent_text))]
fn sent_text(sent: u32) -> Line
    ensures text { result ≡ sent_text sent }
    ensures short { length result ≤ LABEL_BYTES }
{
    let mut line = Line::new();
    line.u32(sent);
    line.text(" messages sent");
    line
}

// Puts the title and how many messages were sent.
fn put_title<D: Drawing>(state: &AirState, title: &Line, drawing: &mut D)
    requires title { title.now ≡ title_text state.now.encounter }
    requires short { length title.now ≤ LABEL_BYTES }
    ensures { D.drew drawing.old drawing.new (title_marks state.now.encounter state.now.journal) }
{
    put_words(
        point_at(400, 700),
        440,
        Anchor::Start,
        Weight::Bold,
        title,
        drawing,
    );
    put_words(
        point_at(400, 1_150),
        280,
        Anchor::Start,
        Weight::Regular,
        &sent_text(sent_in(state)),
        drawing,
    );
}

// Puts where the nearest pair comes nearest, where there is one.
fn put_nearest<D: Drawing>(
    labels: &Labels<'_>,
    encounter: &Encounter,
    pair: Option<NearPair>,
    axis: TimeAxis,
    drawing: &mut D,
)
    requires pair { IfSome pair (IsPair encounter.now) }
    requires axis { axis.cycles ≡ encounter.now.cycles }
    requires start { axis.start ≡ labels.now.start }
    ensures { D.drew drawing.old drawing.new (nearest_marks labels.now encounter.now pair) }
{
    if let Some(pair) = pair {
        put_headline(1_150, encounter, labels, pair, axis, drawing);
    }
}

/// Puts the title, how many messages were sent, and where the nearest pair comes nearest.
pub(crate) fn put_head<D: Drawing>(
    labels: &Labels<'_>,
    state: &AirState,
    title: &Line,
    pair: Option<NearPair>,
    axis: TimeAxis,
    drawing: &mut D,
)
    requires title { title.now ≡ title_text state.now.encounter }
    requires short { length title.now ≤ LABEL_BYTES }
    requires pair { IfSome pair (IsPair state.now.encounter) }
    requires axis { axis.cycles ≡ state.now.encounter.cycles }
    requires start { axis.start ≡ labels.now.start }
    ensures { D.drew drawing.old drawing.new (head_marks labels.now state.now.encounter state.now.journal pair) }
{
    put_title(state, title, drawing);
    put_nearest(labels, state.enc(), pair, axis, drawing);
}
