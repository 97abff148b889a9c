// What is told after the journal of a beginning.
ghost use Rattle.std.specs.Prelude.{◌≡◌, []};
ghost use Rattle.air_journal.specs.Airs.{air_of};
ghost use Rattle.rec_audit.specs.Asking.{NothingAbout};
ghost use Rattle.rec_audit.specs.Explaining.{BarsKey, IsContentSentence, IsToldBy, IsWrongHere, TellsHere, TellsLack, TellsLine};
ghost use Rattle.rec_audit.specs.Keys.{key};
ghost use Rattle.rec_audit.specs.declared.verdict.Reason.{Reason};

use crate::allowed::allowed_line;
use crate::keys::Key;
use crate::lines::TextLines;
use crate::replay::read_first;
use crate::sentences::sentence_of;
use crate::verdict::Reason;
use acas_base::Entry;
use acas_text::Line;
use air_journal::AirState;
use verdict_text::{Wanted, Why, commit_cause, lack, send_cause, take_cause};

// What an entry is about.
fn key_of_entry(entry: &Entry) -> Key
    ensures { result ≡ key entry.now }
{
    match *entry {
        Entry::Commit { own, cycle, .. } => Key::Commit { own, cycle },
        Entry::Send { own, target, .. } => Key::Send { own, target },
        Entry::Take {
            own,
            send,
            copy,
            ..
        } => Key::Take { own, send, copy },
    }
}

// Why nothing about a thing is allowed.
fn why_barred(state: &mut AirState, about: Key) -> Why<'static>
    requires { NothingAbout (air_of state.old.encounter) state.old.journal about }
    ensures { BarsKey (air_of state.old.encounter) state.old.journal about result }
{
    match about {
        Key::Commit { own, cycle } => match commit_cause(state, own, cycle) {
            Some(cause) => Why::NoCommit { own, cycle, cause },
            None => unreachable!(),
        },
        Key::Send { own, target } => match send_cause(state, own, target) {
            Some(cause) => Why::NoSend { own, target, cause },
            None => unreachable!(),
        },
        Key::Take { own, send, copy } => match take_cause(state, own, send, copy) {
            Some(cause) => Why::NoTake {
                own,
                send,
                copy,
                cause,
            },
            None => unreachable!(),
        },
    }
}

// Tells why the entry of the next line isn't allowed.
fn tell_barred(state: &mut AirState, lines: &TextLines<'_>, line: u32) -> Line
    requires wrong { IsWrongHere (air_of state.old.encounter) state.old.journal lines.now.left Reason.NotAllowed }
    ensures { IsToldBy line (TellsLine (air_of state.old.encounter) state.old.journal lines.now.left Reason.NotAllowed) result }
{
    state.legal_law();
    let count = state.enc().crafts().len() as u8;
    match read_first(lines, count) {
        Some(entry) => sentence_of(line, why_barred(state, key_of_entry(&entry))),
        None => unreachable!(),
    }
}

// The sentence that tells the line that is allowed.
fn content_sentence(line: u32, wanted: &Wanted) -> Line
    ensures { IsContentSentence line wanted.now result }
{
    sentence_of(line, Why::OtherContent { wanted })
}

// Tells the line that is allowed in place of the next one.
fn tell_content(state: &mut AirState, lines: &TextLines<'_>, line: u32) -> Line
    requires wrong { IsWrongHere (air_of state.old.encounter) state.old.journal lines.now.left Reason.OtherContent }
    ensures { IsToldBy line (TellsLine (air_of state.old.encounter) state.old.journal lines.now.left Reason.OtherContent) result }
{
    state.legal_law();
    let count = state.enc().crafts().len() as u8;
    match read_first(lines, count) {
        Some(entry) => {
            let wanted = Wanted::of(&allowed_line(state, key_of_entry(&entry)));
            content_sentence(line, &wanted)
        }
        None => unreachable!(),
    }
}

// Tells what a journal lacks.
fn tell_lack(state: &mut AirState, line: u32) -> Line
    requires wrong { IsWrongHere (air_of state.old.encounter) state.old.journal [] Reason.Incomplete }
    ensures { IsToldBy line (TellsLack (air_of state.old.encounter) state.old.journal) result }
{
    match lack(state) {
        Some(lack) => sentence_of(line, Why::Incomplete { lack }),
        None => unreachable!(),
    }
}

/// Tells what is wrong after the entries of a journal, which leave these lines.
pub(crate) fn tell_here(
    state: &mut AirState,
    lines: &TextLines<'_>,
    line: u32,
    reason: Reason,
) -> Line
    requires wrong { IsWrongHere (air_of state.old.encounter) state.old.journal lines.now.left reason }
    ensures { IsToldBy line (TellsHere (air_of state.old.encounter) state.old.journal lines.now.left reason) result }
{
    match reason {
        Reason::NotAllowed => tell_barred(state, lines, line),
        Reason::OtherContent => tell_content(state, lines, line),
        Reason::Incomplete => tell_lack(state, line),
        Reason::Encounter(_) => unreachable!(),
        Reason::Spelling => unreachable!(),
        Reason::Report => unreachable!(),
    }
}
