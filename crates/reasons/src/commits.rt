// The lines of a journal's commits.
ghost use Rattle.std.specs.Prelude.{◌≡◌, ◌+◌, ◌<◌, ◌≤◌, ◌∷◌, List, None, length, map, slice_index_or};
ghost use Rattle.acas_base.specs.declared.TheConstants.{CRAFTS};
ghost use Rattle.acas_base.specs.declared.entry.Entry.{Entry};
ghost use Rattle.air_journal.specs.Airs.{air_of};
ghost use Rattle.air_journal.specs.EntryRefs.{entry_of};
ghost use Rattle.air_journal.specs.Ranges.{IsEntry};
ghost use Rattle.air_rules.specs.Journal.{commits};
ghost use Rattle.air_rules.specs.Rules.{IsLegal};
ghost use Rattle.craft_view.specs.Kept.{Belongs, IsActive};
ghost use Rattle.craft_view.specs.Looking.{AreReady, IsReady};
ghost use Rattle.craft_view.specs.Sight.{sight_of};
ghost use Rattle.craft_view.specs.Views.{picture_of};
ghost use Rattle.reasons.specs.Bounds.{IsSeen};
ghost use Rattle.reasons.specs.Columns.{reason_line};
ghost use Rattle.reasons.specs.Reasons.{commit_reasons, entry_reasons, reason_of, reasons_of};
ghost use Rattle.reasons.specs.Seen.{seen_of};

use crate::columns::set_line;
use crate::reason::Reason;
use crate::rules::rule_of;
use crate::seen::{Seen, own_side_of, seen_of};
use crate::shown::{continued_after, shown_of};
use crate::told::told_of;
use acas_base::{Cells, Encounter, Picture};
use acas_lines::LineSink;
use acas_text::Line;
use air_journal::{AirState, EntryRef};
use craft_view::{Craft, Surveillance};
use flight::Places;
use journal_reader::Reader;

// A commit that comes next in a journal.
#[derive(Drop)]
struct Next<'a> {
    encounter: &'a Encounter,
    own: u8,
    cycle: u16,
    cells: &'a Cells,
}

// Why the cell of a commit against another aircraft is what it is.
#[tactic(auto, unfolding(crate::specs::Reasons::reason_of))]
fn reason_of(reader: &Reader<'_>, commit: &Next<'_>, other: u8, seen: &Seen) -> Reason
    requires same { commit.now.encounter.now ≡ reader.now.encounter }
    requires own { commit.now.own < length reader.now.encounter.crafts }
    requires other { other < length reader.now.encounter.crafts }
    requires few { length reader.now.encounter.crafts ≤ CRAFTS }
    requires seen { seen.now ≡ seen_of (sight_of reader.now.encounter commit.now.own commit.now.cycle) other }
    requires bounds { IsSeen seen.now }
    ensures { result ≡ reason_of reader.now.encounter reader.now.read commit.now.own commit.now.cycle commit.now.cells.now other }
{
    let crafts = commit.encounter.crafts();
    let own = commit.own;
    let complement = reader.complement(own, other);
    let before = reader.last_cell(own, other);
    Reason {
        position: reader.position(),
        cycle: commit.cycle,
        own: crafts[usize::from(own)].address,
        other: crafts[usize::from(other)].address,
        seen: shown_of(seen),
        continued: continued_after(&seen.view, &before),
        told: told_of(reader, own, other, complement),
        before,
        cell: commit.cells.list[usize::from(other)],
        rule: rule_of(&before, &seen.view, complement, seen.rank),
    }
}

// Puts the lines of a commit, whose aircraft has looked in its cycle.
fn put_commit<S: LineSink>(
    reader: &Reader<'_>,
    commit: &Next<'_>,
    places: &Places<'_>,
    craft: &Craft,
    picture: &Picture,
    sink: &mut S,
)
    requires same { commit.now.encounter.now ≡ reader.now.encounter }
    requires places { places.now ≡ record { encounter = reader.now.encounter; cycle = commit.now.cycle } }
    requires belongs { Belongs reader.now.encounter craft.now }
    requires own { craft.now.own ≡ commit.now.own }
    requires present { craft.now.cycle ≡ commit.now.cycle }
    requires begun { 1 ≤ commit.now.cycle }
    requires picture { picture.now ≡ picture_of reader.now.encounter commit.now.own commit.now.cycle }
    ensures lines { S.took sink.old sink.new (map (reason_line reader.now.encounter.profile) (commit_reasons reader.now.encounter reader.now.read commit.now.own commit.now.cycle commit.now.cells.now)) }
{
    // No encounter has more than 16 aircraft.
    commit.encounter.valid_law();
    let own = own_side_of(places, craft);
    let mut line = Line::new();
    for other in 0..commit.encounter.crafts().len() as u8 {
        if other == commit.own {
            continue;
        }
        let seen = seen_of(places, craft, picture, &own, other);
        let reason = reason_of(reader, commit, other, &seen);
        set_line(&mut line, commit.encounter.profile(), &reason);
        sink.line(&line);
    }
}

// Puts the lines of a commit of the aircraft at a place, which has looked in its cycle.
#[tactic(auto, unfolding(craft_view::specs::Looking::IsReady))]
fn put_looked<S: LineSink>(
    reader: &Reader<'_>,
    commit: &Next<'_>,
    places: &Places<'_>,
    surveillance: &Surveillance,
    sink: &mut S,
)
    requires same { commit.now.encounter.now ≡ reader.now.encounter }
    requires places { places.now ≡ record { encounter = reader.now.encounter; cycle = commit.now.cycle } }
    requires active { IsActive reader.now.encounter commit.now.own }
    requires place { commit.now.own < CRAFTS }
    requires begun { 1 ≤ commit.now.cycle }
    requires looked { IsReady reader.now.encounter commit.now.own commit.now.cycle (slice_index_or surveillance.now.crafts commit.now.own None) }
    requires picture { surveillance.now.picture ≡ picture_of reader.now.encounter commit.now.own commit.now.cycle }
    ensures lines { S.took sink.old sink.new (map (reason_line reader.now.encounter.profile) (commit_reasons reader.now.encounter reader.now.read commit.now.own commit.now.cycle commit.now.cells.now)) }
{
    match &surveillance.crafts[usize::from(commit.own)] {
        Some(craft) => put_commit(reader, commit, places, craft, &surveillance.picture, sink),
        None => unreachable!(),
    }
}

// Puts the lines of a commit, in whose cycle its aircraft looks.
fn put_by<S: LineSink>(
    reader: &Reader<'_>,
    commit: &Next<'_>,
    surveillance: &mut Surveillance,
    sink: &mut S,
)
    requires same { commit.now.encounter.now ≡ reader.now.encounter }
    requires active { IsActive reader.now.encounter commit.now.own }
    requires ready { AreReady reader.now.encounter (commits reader.now.read) surveillance.old.crafts }
    requires next { commit.now.cycle ≡ commits reader.now.read commit.now.own + 1 }
    requires run { commit.now.cycle ≤ reader.now.encounter.cycles }
    ensures ready { AreReady reader.now.encounter (commits (Entry.Commit commit.now.own commit.now.cycle commit.now.cells.now ∷ reader.now.read)) surveillance.new.crafts }
    ensures lines { S.took sink.old sink.new (map (reason_line reader.now.encounter.profile) (commit_reasons reader.now.encounter reader.now.read commit.now.own commit.now.cycle commit.now.cells.now)) }
{
    // No run is longer than 600 cycles, and no encounter has more than 16 aircraft.
    commit.encounter.valid_law();
    let places = Places::new(commit.encounter, commit.cycle);
    surveillance.look(commit.own, &places);
    put_looked(reader, commit, &places, surveillance, sink);
}

// Puts the lines of an entry, which comes next.
fn put_entry<S: LineSink>(
    reader: &Reader<'_>,
    encounter: &Encounter,
    entry: &EntryRef<'_>,
    surveillance: &mut Surveillance,
    sink: &mut S,
)
    requires same { encounter.now ≡ reader.now.encounter }
    requires legal { IsLegal (air_of reader.now.encounter) (entry_of entry.now ∷ reader.now.read) }
    requires ready { AreReady reader.now.encounter (commits reader.now.read) surveillance.old.crafts }
    ensures ready { AreReady reader.now.encounter (commits (entry_of entry.now ∷ reader.now.read)) surveillance.new.crafts }
    ensures lines { S.took sink.old sink.new (map (reason_line reader.now.encounter.profile) (entry_reasons reader.now.encounter reader.now.read (entry_of entry.now))) }
{
    // No encounter has more than 16 aircraft.
    encounter.valid_law();
    if let EntryRef::Commit { own, cycle, cells } = *entry {
        let commit = Next {
            encounter,
            own,
            cycle,
            cells,
        };
        put_by(reader, &commit, surveillance, sink);
    }
}

/// Puts the lines of all commits, in order.
pub(crate) fn put_commits<S: LineSink>(state: &AirState, sink: &mut S)
    ensures { S.took sink.old sink.new (map (reason_line state.now.encounter.profile) (reasons_of state.now.encounter state.now.journal)) }
{
    state.legal_law();
    let mut reader = Reader::new(state);
    let mut surveillance = Surveillance::new(state.enc());
    'entries: while let Some(entry) = reader.peek() {
        reader.reading_law();
        put_entry(&reader, state.enc(), &entry, &mut surveillance, sink);
        let _ = reader.next();
    }
}

// How many lines an entry has, after whatever journal.
fn reasons_in(encounter: &Encounter, entry: &EntryRef<'_>) -> u32
    requires { IsEntry (length encounter.now.crafts) (entry_of entry.now) }
    ensures value { (journal : List Entry) → result ≡ length (entry_reasons encounter.now journal (entry_of entry.now)) }
    ensures few { result ≤ 15 }
{
    match entry {
        EntryRef::Commit { .. } => encounter.crafts().len() as u32 - 1,
        EntryRef::Send { .. } | EntryRef::Take { .. } => 0,
    }
}

/// How many lines the commits have.
pub(crate) fn reason_count(state: &AirState) -> u32
    ensures { result ≡ length (reasons_of state.now.encounter state.now.journal) }
{
    state.legal_law();
    let mut reader = Reader::new(state);
    let mut count = 0;
    'entries: while let Some(entry) = reader.next() {
        reader.reading_law();
        count += reasons_in(state.enc(), &entry);
    }
    count
}
