// The messages that were lost or spoilt, between the lanes: a mark for each maximal row of them.
ghost use Rattle.std.specs.Prelude.{◌≡◌, ◌<◌, ◌≤◌, IfSome, Some, length, option_to_list, reverse, slice_get};
ghost use Rattle.std.specs.List.{flat_map};
ghost use Rattle.air_journal.specs.EntryRefs.{entry_of};
ghost use Rattle.air_rules.specs.Journal.{commits};
ghost use Rattle.journal_reader.specs.Reading.{read_of};
ghost use Rattle.picture.specs.Mishaps.{IsSentRow, mishap_of, row_from, row_of, row_sent_at};
ghost use Rattle.picture.specs.MishapsDrawn.{drawn_row, mishaps_marks};

use crate::messages_read::commits_before;
use crate::mishaps_drawn::put_row;
use air_journal::EntryRef;
use deliveries::{Deliveries, Mishap, Row};
use plot_axes::TimeAxis;
use svg_text::Drawing;

/// What is drawn for a maximal row of messages.
#[derive(Clone, Copy)]
pub(crate) enum Sign {
    /// They were lost.
    Cross,
    /// They were spoilt.
    HollowHead,
}

/// A maximal row of messages of one aircraft to another one, and how many cycles the sender had committed when it sent
/// the first of them.
#[derive(Clone, Copy)]
pub(crate) struct SentRow {
    pub sender: u8,
    pub receiver: u8,
    pub row: Row,
    pub sent_after: u16,
}

fn mishap_of(sign: Sign) -> Mishap
    ensures { result ≡ mishap_of sign }
{
    match sign {
        Sign::Cross => Mishap::Lost,
        Sign::HollowHead => Mishap::Spoilt,
    }
}

// The row that begins with a message that was sent at a position.
fn row_from(
    deliveries: &Deliveries,
    sign: Sign,
    sender: u8,
    receiver: u8,
    number: u16,
    at: u32,
) -> Option<SentRow>
    requires sender { sender < length deliveries.now.encounter.crafts }
    requires receiver { receiver < length deliveries.now.encounter.crafts }
    requires number { 1 ≤ number }
    ensures value { result ≡ row_from deliveries.now.encounter deliveries.now.journal sign sender receiver number (commits (read_of deliveries.now.journal at) sender) }
    ensures fits { IfSome result (λ sent. IsSentRow deliveries.now.encounter sent) }
{
    match deliveries.row_at(mishap_of(sign), sender, receiver, number) {
        Some(row) => Some(SentRow {
            sender,
            receiver,
            row,
            sent_after: commits_before(deliveries.state(), sender, at),
        }),
        None => None,
    }
}

// The row that begins with the message that the entry at a position sends.
fn row_of(deliveries: &Deliveries, sign: Sign, at: u32, entry: &EntryRef<'_>) -> Option<SentRow>
    requires { slice_get (reverse deliveries.now.journal) at ≡ Some (entry_of entry.now) }
    ensures value { result ≡ row_of deliveries.now.encounter deliveries.now.journal sign (read_of deliveries.now.journal at) (entry_of entry.now) }
    ensures fits { IfSome result (λ sent. IsSentRow deliveries.now.encounter sent) }
{
    deliveries.state().legal_law();
    match *entry {
        EntryRef::Send {
            own,
            target,
            number,
            ..
        } => row_from(deliveries, sign, own, target, number, at),
        EntryRef::Commit { .. } | EntryRef::Take { .. } => None,
    }
}

// The row that begins with the message that was sent at a position.
fn row_sent_at(deliveries: &Deliveries, sign: Sign, at: u32) -> Option<SentRow>
    ensures value { result ≡ row_sent_at deliveries.now.encounter deliveries.now.journal sign at }
    ensures fits { IfSome result (λ sent. IsSentRow deliveries.now.encounter sent) }
{
    match deliveries.state().entry_ref(at) {
        Some(entry) => row_of(deliveries, sign, at, &entry),
        None => None,
    }
}

// Puts the marks of that row, where there is one.
fn put_sent_at<D: Drawing>(
    deliveries: &Deliveries,
    axis: TimeAxis,
    sign: Sign,
    at: u32,
    drawing: &mut D,
)
    requires { axis.cycles ≡ deliveries.now.encounter.cycles }
    ensures { D.drew drawing.old drawing.new (flat_map (drawn_row deliveries.now.encounter sign) (option_to_list (row_sent_at deliveries.now.encounter deliveries.now.journal sign at))) }
{
    if let Some(sent) = row_sent_at(deliveries, sign, at) {
        put_row(deliveries.state().enc(), axis, sign, sent, drawing);
    }
}

/// Puts this sign for each maximal row, in the order in which their first messages were sent.
pub(crate) fn put_mishaps<D: Drawing>(
    deliveries: &Deliveries,
    axis: TimeAxis,
    sign: Sign,
    drawing: &mut D,
)
    requires { axis.cycles ≡ deliveries.now.encounter.cycles }
    ensures { D.drew drawing.old drawing.new (mishaps_marks deliveries.now.encounter deliveries.now.journal sign) }
{
    for at in 0..deliveries.state().count() {
        put_sent_at(deliveries, axis, sign, at, drawing);
    }
}
