// Why a send isn't allowed.
ghost use Rattle.std.specs.Prelude.{◌≡◌, MatchOption};
ghost use Rattle.air_journal.specs.Airs.{air_of};
ghost use Rattle.craft_view.specs.Kept.{IsActive};
ghost use Rattle.verdict_text.specs.Causes.{BarsSend, MaySendNow};
ghost use Rattle.verdict_text.specs.Searches.{SentNothing};

use crate::causes::SendCause;
use air_journal::{AirState, EntryRef, Sent};
use craft_view::is_active;

/// The first aircraft that an active one owes a message. It is sent to find out.
pub(crate) fn first_receiver(state: &mut AirState, own: u8) -> Option<u8>
    requires { IsActive state.old.encounter own }
    ensures encounter { state.new.encounter ≡ state.old.encounter }
    ensures owed { MatchOption result
        (SentNothing (air_of state.old.encounter) state.old.journal state.new.journal own)
        (MaySendNow (air_of state.old.encounter) state.old.journal own) }
{
    match state.send(own) {
        Sent::Nothing => None,
        Sent::Done(position) => match state.entry_ref(position) {
            Some(EntryRef::Send { target, .. }) => Some(target),
            _ => unreachable!(),
        },
    }
}

/// Why an aircraft may not send to another one after a journal. None where it may. The first message that it owes is
/// sent to find out.
pub fn send_cause(state: &mut AirState, own: u8, target: u8) -> Option<SendCause>
    ensures { MatchOption result
        (MaySendNow (air_of state.old.encounter) state.old.journal own target)
        (BarsSend (air_of state.old.encounter) state.old.journal own target) }
{
    if !is_active(state.enc(), own) {
        return Some(SendCause::Inactive);
    }
    match first_receiver(state, own) {
        None => Some(SendCause::OwesNobody),
        Some(first) => if first == target {
            None
        } else {
            Some(SendCause::OwesFirst { target: first })
        },
    }
}
