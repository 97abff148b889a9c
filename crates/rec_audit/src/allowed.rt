// The entry that is allowed about a thing, and its line.
ghost use Rattle.std.specs.Prelude.{◌≡◌, ◌+◌, ◌<◌, Some, length, reverse, slice_get};
ghost use Rattle.acas_base.specs.declared.entry.Entry.{Entry};
ghost use Rattle.air_journal.specs.Airs.{air_of};
ghost use Rattle.air_rules.specs.Journal.{commits};
ghost use Rattle.craft_view.specs.Kept.{IsActive};
ghost use Rattle.craft_view.specs.Views.{picture_of};
ghost use Rattle.rec_audit.specs.Asking.{Added};
ghost use Rattle.rec_audit.specs.Allowing.{IsAllowedAbout, IsAllowedLine};
ghost use Rattle.rec_audit.specs.declared.keys.Key.{Key};
ghost use Rattle.rec_text.specs.Entries.{entry_line};

use crate::keys::Key;
use acas_base::Picture;
use acas_text::Line;
use air_journal::{AirState, Commit, Sent, TookThis};
use craft_view::Craft;
use rec_text::set_entry_line;

// What an aircraft sees in the cycle of its next commit.
fn next_picture(state: &AirState, own: u8) -> Picture
    requires active { IsActive state.now.encounter own }
    requires left { commits state.now.journal own < state.now.encounter.cycles }
    ensures { result ≡ picture_of state.now.encounter own (commits state.now.journal own + 1) }
{
    let encounter = state.enc();
    state.legal_law();
    let mut craft = Craft::new(encounter, own);
    let looks = state.commits(own);
    for _look in 0..looks {
        let _ = craft.look(encounter);
    }
    craft.look(encounter)
}

// Adds the commit that is allowed.
fn add_commit(state: &mut AirState, own: u8, cycle: u16)
    requires some { IsAllowedAbout (air_of state.old.encounter) state.old.journal (Key.Commit own cycle) }
    ensures encounter { state.new.encounter ≡ state.old.encounter }
    ensures added { Added (air_of state.old.encounter) state.old.journal state.new.journal (Key.Commit own cycle) }
{
    let picture = next_picture(state, own);
    match state.commit(own, &picture) {
        Commit::Done(_) => {}
        _ => unreachable!(),
    }
}

// Adds the send that is allowed.
fn add_send(state: &mut AirState, own: u8, target: u8)
    requires some { IsAllowedAbout (air_of state.old.encounter) state.old.journal (Key.Send own target) }
    ensures encounter { state.new.encounter ≡ state.old.encounter }
    ensures added { Added (air_of state.old.encounter) state.old.journal state.new.journal (Key.Send own target) }
{
    match state.send(own) {
        Sent::Done(_) => {}
        Sent::Nothing => unreachable!(),
    }
}

// Adds the take that is allowed.
fn add_take(state: &mut AirState, own: u8, send: u32, copy: u8)
    requires some { IsAllowedAbout (air_of state.old.encounter) state.old.journal (Key.Take own send copy) }
    ensures encounter { state.new.encounter ≡ state.old.encounter }
    ensures added { Added (air_of state.old.encounter) state.old.journal state.new.journal (Key.Take own send copy) }
{
    match state.take_this(own, send, copy) {
        TookThis::Done(_, _) => {}
        TookThis::NotDue => unreachable!(),
    }
}

// Adds the entry that is allowed about a thing.
fn add_allowed(state: &mut AirState, about: Key)
    requires some { IsAllowedAbout (air_of state.old.encounter) state.old.journal about }
    ensures encounter { state.new.encounter ≡ state.old.encounter }
    ensures added { Added (air_of state.old.encounter) state.old.journal state.new.journal about }
{
    match about {
        Key::Commit { own, cycle } => add_commit(state, own, cycle),
        Key::Send { own, target } => add_send(state, own, target),
        Key::Take { own, send, copy } => add_take(state, own, send, copy),
    }
}

// The line of the entry at a position.
fn line_of_entry(state: &AirState, at: u32) -> Line
    ensures { (entry : Entry) → slice_get (reverse state.now.journal) at ≡ Some entry → result ≡ entry_line (length state.now.encounter.crafts) entry }
{
    state.legal_law();
    let count = state.enc().crafts().len() as u8;
    let mut made = Line::new();
    match state.entry_ref(at) {
        Some(entry) => {
            set_entry_line(&mut made, &entry, count);
            made
        }
        None => made,
    }
}

/// The line of the entry that is allowed about a thing. The entry is added to the journal.
pub(crate) fn allowed_line(state: &mut AirState, about: Key) -> Line
    requires some { IsAllowedAbout (air_of state.old.encounter) state.old.journal about }
    ensures { IsAllowedLine (air_of state.old.encounter) state.old.journal about result }
{
    let at = state.count();
    add_allowed(state, about);
    line_of_entry(state, at)
}
