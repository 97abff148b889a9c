// The messages between the lanes: an arrow for each take that changes the complement in force, and a mark for each
// maximal row of lost or spoilt messages.
ghost use Rattle.std.specs.Prelude.{◌≡◌, IfSome, option_to_list};
ghost use Rattle.std.specs.List.{flat_map};
ghost use Rattle.picture.specs.Messages.{IsArrow, IsTaking, arrow_for};
ghost use Rattle.picture.specs.MessagesDrawn.{arrow_marks, arrows_marks};
ghost use Rattle.picture.specs.MishapsDrawn.{messages_marks};

use crate::messages_drawn::put_arrow;
use crate::messages_read::{Arrow, Taking, arrow_by, taking_of};
use crate::mishaps::{Sign, put_mishaps};
use air_journal::AirState;
use deliveries::Deliveries;
use journal_reader::Reader;
use plot_axes::TimeAxis;
use svg_text::Drawing;

// The arrow of a take, where the reader stands after it.
fn arrow_for(state: &AirState, reader: &Reader<'_>, taking: Option<Taking>) -> Option<Arrow>
    requires encounter { reader.now.encounter ≡ state.now.encounter }
    requires fits { IfSome taking (λ taking. IsTaking state.now.encounter taking) }
    ensures value { result ≡ arrow_for state.now.encounter state.now.journal reader.now.read taking }
    ensures fits { IfSome result (λ arrow. IsArrow state.now.encounter arrow) }
{
    state.legal_law();
    match taking {
        Some(taking) => {
            let after = reader.complement(taking.receiver, taking.sender);
            arrow_by(state, taking, after)
        }
        None => None,
    }
}

// Puts the arrow of a take, where the reader stands after it and it has one.
fn put_taken<D: Drawing>(
    state: &AirState,
    axis: TimeAxis,
    reader: &Reader<'_>,
    taking: Option<Taking>,
    drawing: &mut D,
)
    requires axis { axis.cycles ≡ state.now.encounter.cycles }
    requires encounter { reader.now.encounter ≡ state.now.encounter }
    requires fits { IfSome taking (λ taking. IsTaking state.now.encounter taking) }
    ensures { D.drew drawing.old drawing.new (flat_map (arrow_marks state.now.encounter) (option_to_list (arrow_for state.now.encounter state.now.journal reader.now.read taking))) }
{
    if let Some(arrow) = arrow_for(state, reader, taking) {
        put_arrow(state.enc(), axis, arrow, drawing);
    }
}

// Puts all arrows.
fn put_arrows<D: Drawing>(state: &AirState, axis: TimeAxis, drawing: &mut D)
    requires axis { axis.cycles ≡ state.now.encounter.cycles }
    ensures { D.drew drawing.old drawing.new (arrows_marks state.now.encounter state.now.journal) }
{
    let mut reader = Reader::new(state);
    while let Some(entry) = reader.peek() {
        let taking = taking_of(state, &reader, &entry);
        reader.next();
        put_taken(state, axis, &reader, taking, drawing);
    }
}

/// Puts all arrows, a cross for each maximal row of lost messages, and a hollow head for each one of spoilt messages.
pub(crate) fn put_messages<D: Drawing>(deliveries: &Deliveries, axis: TimeAxis, drawing: &mut D)
    requires axis { axis.cycles ≡ deliveries.now.encounter.cycles }
    ensures { D.drew drawing.old drawing.new (messages_marks deliveries.now.encounter deliveries.now.journal) }
{
    put_arrows(deliveries.state(), axis, drawing);
    put_mishaps(deliveries, axis, Sign::Cross, drawing);
    put_mishaps(deliveries, axis, Sign::HollowHead, drawing);
}
