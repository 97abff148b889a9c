// Entries that are read from lines and added to a journal.
ghost use Rattle.std.specs.Prelude.{◌≡◌, ◌<◌, ◌≤◌, [], IfOk, MatchResult, Some, length, reverse, slice_get};
ghost use Rattle.acas_base.specs.declared.TheConstants.{CRAFTS};
ghost use Rattle.acas_base.specs.declared.entry.Entry.{Entry};
ghost use Rattle.air_journal.specs.Airs.{air_of};
ghost use Rattle.air_rules.specs.Journal.{commits};
ghost use Rattle.rec_audit.specs.Cursors.{TakesLine};
ghost use Rattle.rec_audit.specs.Engine.{AddedNext, IsWrongNext, Replayed, StoppedAt};
ghost use Rattle.rec_audit.specs.Reading.{ReadsFirst};
ghost use Rattle.rec_text.specs.Entries.{entry_line};
ghost use Rattle.craft_view.specs.Looking.{AreReady};

use crate::asking::ask;
use crate::entries::read_entry;
use crate::fault::Fault;
use crate::keys::read_key;
use crate::lines::TextLines;
use crate::verdict::Reason;
use acas_base::Entry;
use acas_text::Line;
use air_journal::AirState;
use craft_view::Surveillance;
use flight::Places;
use rec_text::set_entry_line;

// Takes the next line where it is the line of the entry at a position. That line is made again for it.
fn take_entry_at(state: &AirState, at: u32, made: &mut Line, lines: &mut TextLines<'_>) -> bool
    ensures { (entry : Entry) → slice_get (reverse state.now.journal) at ≡ Some entry → TakesLine lines.old lines.new (entry_line (length state.now.encounter.crafts) entry) result }
{
    state.legal_law();
    let count = state.enc().crafts().len() as u8;
    match state.entry_ref(at) {
        Some(entry) => {
            set_entry_line(made, &entry, count);
            lines.take_whole(made.bytes())
        }
        None => false,
    }
}

/// The entry that the next line spells. The line isn't taken.
pub(crate) fn read_first(lines: &TextLines<'_>, count: u8) -> Option<Entry>
    requires { (0 < count) × (count ≤ CRAFTS) }
    ensures { ReadsFirst count lines.now.left result }
{
    match lines.again().next() {
        Some(line) => read_entry(line, count),
        None => None,
    }
}

// Adds the entry of the next line, where that entry is allowed, and takes the line. The whole line is parsed only where
// it is wrong, to find the reason.
fn add_next(
    state: &mut AirState,
    surveillance: &mut Surveillance,
    places: &mut Places<'_>,
    made: &mut Line,
    lines: &mut TextLines<'_>,
) -> Result<(), Reason>
    requires same { places.old.encounter ≡ state.old.encounter }
    requires ready { AreReady state.old.encounter (commits state.old.journal) surveillance.old.crafts }
    ensures encounter { state.new.encounter ≡ state.old.encounter }
    ensures places { places.new.encounter ≡ state.old.encounter }
    ensures added { MatchResult result
        (λ _. AddedNext (air_of state.old.encounter) state.old.journal state.new.journal lines.old lines.new)
        (λ reason. IsWrongNext (air_of state.old.encounter) state.old.journal lines.old.left reason) }
    ensures ready { IfOk result (λ _. AreReady state.old.encounter (commits state.new.journal) surveillance.new.crafts) }
{
    state.legal_law();
    let count = state.enc().crafts().len() as u8;
    let Some(about) = read_key(lines.rest(), count) else {
        return Err(Reason::Spelling);
    };
    let at = state.count();
    if !ask(state, surveillance, places, about) {
        return match read_first(lines, count) {
            Some(_) => Err(Reason::NotAllowed),
            None => Err(Reason::Spelling),
        };
    }
    if take_entry_at(state, at, made, lines) {
        return Ok(());
    }
    match read_first(lines, count) {
        Some(_) => Err(Reason::OtherContent),
        None => Err(Reason::Spelling),
    }
}

/// Adds the entries of the lines to the empty journal, at most `most` of them, until a line is wrong. It takes no
/// memory.
pub(crate) fn replay(
    state: &mut AirState,
    surveillance: &mut Surveillance,
    places: &mut Places<'_>,
    lines: &mut TextLines<'_>,
    most: u32,
) -> Result<(), Fault>
    requires same { places.old.encounter ≡ state.old.encounter }
    requires empty { state.old.journal ≡ [] }
    requires ready { AreReady state.old.encounter (commits []) surveillance.old.crafts }
    ensures encounter { state.new.encounter ≡ state.old.encounter }
    ensures replayed { MatchResult result
        (λ _. Replayed (air_of state.old.encounter) lines.old lines.new most state.new.journal)
        (λ fault. StoppedAt (air_of state.old.encounter) lines.old most fault) }
{
    let mut made = Line::new();
    for _ in 0..most {
        if lines.is_done() {
            return Ok(());
        }
        let line = lines.number();
        if let Err(reason) = add_next(state, surveillance, places, &mut made, lines) {
            return Err(Fault { line, reason });
        }
    }
    Ok(())
}
