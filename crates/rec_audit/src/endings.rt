// What follows the number of entries.
ghost use Rattle.std.specs.Prelude.{◌≡◌, ◌+◌, [], MatchOption, MatchResult};
ghost use Rattle.air_rules.specs.Journal.{commits};
ghost use Rattle.rec_audit.specs.Engine.{DiffersFrom, IsWrongIn, ReplayedTo};
ghost use Rattle.rec_audit.specs.Opening.{first_entry};
ghost use Rattle.rec_text.specs.Recording.{closing_lines};
ghost use Rattle.craft_view.specs.Looking.{AreReady};

use crate::compare::take_text;
use crate::fault::Fault;
use crate::lines::TextLines;
use crate::replay::replay;
use crate::verdict::Reason;
use air_journal::AirState;
use craft_view::Surveillance;
use flight::Places;
use rec_text::Closing;

// The number of the first line that differs from the report and the close; none where no line does.
fn other_end(state: &AirState, lines: &mut TextLines<'_>) -> Option<u32>
    ensures { MatchOption result
        (lines.old.left ≡ closing_lines state.now.encounter state.now.journal)
        (λ line. DiffersFrom lines.old line (closing_lines state.now.encounter state.now.journal)) }
{
    let same = take_text(&Closing(state), lines);
    let number = lines.number();
    if !same {
        return Some(number);
    }
    match lines.next() {
        Some(_) => Some(number),
        None => None,
    }
}

/// How much of a recording is given.
#[derive(Clone, Copy)]
pub(crate) enum Extent {
    /// All of it.
    Whole,
    /// It may end after the number of entries or after any entry.
    Beginning,
}

/// Replays the entries of a recording, and compares the lines after them. The journal has to be empty. It takes no
/// memory.
pub(crate) fn replay_to_end(
    extent: Extent,
    state: &mut AirState,
    surveillance: &mut Surveillance,
    places: &mut Places<'_>,
    lines: &mut TextLines<'_>,
    count: u32,
) -> Result<(), Fault>
    requires same { places.old.encounter ≡ state.old.encounter }
    requires empty { state.old.journal ≡ [] }
    requires ready { AreReady state.old.encounter (commits []) surveillance.old.crafts }
    requires first { lines.old.taken + 1 ≡ first_entry state.old.encounter }
    ensures encounter { state.new.encounter ≡ state.old.encounter }
    ensures read { MatchResult result
        (λ _. ReplayedTo extent state.old.encounter lines.old.left count state.new.journal)
        (λ fault. IsWrongIn extent state.old.encounter count lines.old.left fault.line fault.reason) }
{
    if let Err(fault) = replay(state, surveillance, places, lines, count) {
        return Err(fault);
    }
    let line = lines.number();
    match extent {
        Extent::Beginning => match lines.next() {
            Some(_) => Err(Fault {
                line,
                reason: Reason::Report,
            }),
            None => Ok(()),
        },
        Extent::Whole => {
            if state.count() < count {
                return Err(Fault {
                    line,
                    reason: Reason::Spelling,
                });
            }
            if !state.complete() {
                return Err(Fault {
                    line,
                    reason: Reason::Incomplete,
                });
            }
            match other_end(state, lines) {
                Some(line) => Err(Fault {
                    line,
                    reason: Reason::Report,
                }),
                None => Ok(()),
            }
        }
    }
}
