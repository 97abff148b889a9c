// Who has fewer commits.
ghost use Rattle.std.specs.Prelude.{◌≡◌, ◌<◌, ◌≤◌, MatchOption, length};
ghost use Rattle.air_journal.specs.Airs.{air_of};
ghost use Rattle.air_journal.specs.Found.{IsFirstBehindBy, NobodyBehind};

use crate::crafts::{count_of, is_active};
use crate::tables::Tables;
use acas_base::Encounter;

/// An aircraft that is behind, and its commits.
#[derive(Clone, Copy)]
pub(crate) struct Behind {
    pub craft: u8,
    pub commits: u16,
}

/// The first active aircraft with fewer commits than this.
pub(crate) fn first_behind(encounter: &Encounter, tables: &Tables, commits: u16) -> Option<Behind>
    ensures { MatchOption result (NobodyBehind (air_of encounter.now) tables.now commits (length encounter.now.crafts)) (IsFirstBehindBy (air_of encounter.now) tables.now commits) }
{
    let count = count_of(encounter);
    for craft in 0..count {
        let theirs = tables.made(craft).commits;
        if theirs < commits && is_active(encounter, craft) {
            return Some(Behind {
                craft,
                commits: theirs,
            });
        }
    }
    None
}
