// What a journal lacks that isn't complete.
ghost use Rattle.std.specs.Prelude.{MatchOption};
ghost use Rattle.air_journal.specs.Airs.{air_of};
ghost use Rattle.air_rules.specs.Rules.{IsComplete};
ghost use Rattle.verdict_text.specs.Causes.{Lacks};
ghost use Rattle.verdict_text.specs.Searches.{AllCommitted};

use crate::causes::Lack;
use crate::sends::first_receiver;
use air_journal::AirState;
use craft_view::is_active;

// The first active aircraft with cycles left.
fn lacking_commits(state: &AirState) -> Option<Lack>
    ensures { MatchOption result
        (AllCommitted (air_of state.now.encounter) state.now.journal)
        (Lacks (air_of state.now.encounter) state.now.journal) }
{
    state.legal_law();
    let count = state.enc().crafts().len() as u8;
    let cycles = state.enc().cycles();
    for own in 0..count {
        let commits = state.commits(own);
        if is_active(state.enc(), own) && commits < cycles {
            return Some(Lack::Commits {
                own,
                commits,
                cycles,
            });
        }
    }
    None
}

/// What a journal lacks; none where it is complete. A message that is owed is sent to find out.
pub fn lack(state: &mut AirState) -> Option<Lack>
    ensures { MatchOption result
        (IsComplete (air_of state.old.encounter) state.old.journal)
        (Lacks (air_of state.old.encounter) state.old.journal) }
{
    if let Some(lack) = lacking_commits(state) {
        return Some(lack);
    }
    state.legal_law();
    let count = state.enc().crafts().len() as u8;
    for sender in 0..count {
        if is_active(state.enc(), sender) {
            if let Some(receiver) = first_receiver(state, sender) {
                return Some(Lack::Message { sender, receiver });
            }
        }
    }
    None
}
