// The journal as it is kept: what was done, in order, and the cells of the commits by cycle and aircraft.
ghost use Rattle.std.specs.Prelude.{◌≡◌, ◌*◌, ◌<◌, ◌≤◌, [], ◌∷◌, length, reverse, slice_get, option_map, IfOk, Some, None, IsSome};
ghost use Rattle.acas_base.specs.declared.entry.Entry.{Entry};
ghost use Rattle.acas_base.specs.declared.entry.Entry.TheVariants as kinds;
ghost use Rattle.air_journal.specs.Cells.{commit_cells};
ghost use Rattle.air_journal.specs.EntryRefs.{entry_of};
ghost use Rattle.air_journal.specs.declared.log.TheConstants.{PAGE_NOTES};
ghost use Rattle.air_journal.specs.Written.{IsNote, place_in, told};

use crate::entry_ref::EntryRef;
use crate::log::{Log, Note};
use acas_base::{CRAFTS, Cell, Cells};
use std::alloc::{AllocError, Global};
use std::marker::Model;

/// The entries of a journal. The cells of a commit are kept once, by cycle and aircraft, so that they are
/// found at once and an entry takes little room. There is a place for each aircraft of the encounter in each cycle.
#[derive(Drop)]
pub(crate) struct Journal {
    log: Log,
    crafts: u8,
    cells: Vec<Cells>,
}

impl Model for Journal {
    ghost use Rattle.std.specs.Prelude.{length};
    ghost use Rattle.air_journal.specs.Written.{AreNotes, Written, entries_in};

    ghost Value = { Written };

    ghost view = { λ j. record {
      entries = entries_in j.crafts j.cells.items j.log.notes;
      room = j.log.room;
      crafts = j.crafts;
      places = length j.cells.items;
    } };

    ghost invariant = { λ j. AreNotes j.crafts (length j.cells.items) j.log.notes };
}

// Where the cells of a commit stand among those of so many aircraft.
fn place_in(crafts: u8, own: u8, cycle: u16) -> usize
    requires { 1 ≤ cycle }
    ensures { result ≡ place_in crafts own cycle }
{
    usize::from(cycle - 1) * usize::from(crafts) + usize::from(own)
}

fn new_cells(alloc: Global, places: usize) -> Result<Vec<Cells>, AllocError>
    ensures { IfOk result (λ cells. length cells.items ≡ places) }
{
    let clear = Cells {
        list: [Cell::Clear; CRAFTS],
    };
    let mut cells = Vec::new(alloc);
    cells.resize(places, clear)?;
    Ok(cells)
}

// The entry of a note.
fn entry_of<'a>(note: &Note, crafts: u8, cells: &'a [Cells]) -> EntryRef<'a>
    requires { IsNote crafts (length cells.now) note.now }
    ensures { entry_of result ≡ told crafts cells.now note.now }
{
    match *note {
        Note::Commit { own, cycle } => EntryRef::Commit {
            own,
            cycle,
            cells: &cells[place_in(crafts, own, cycle)],
        },
        Note::Send {
            own,
            target,
            number,
            word,
        } => EntryRef::Send {
            own,
            target,
            number,
            word,
        },
        Note::Take {
            own,
            send,
            copy,
            good,
        } => EntryRef::Take {
            own,
            send,
            copy,
            good,
        },
    }
}

impl Journal {
    /// An empty journal with room for the commits of `crafts` aircraft in `cycles` cycles and for `pages` pages
    /// of entries.
    pub(crate) fn new(
        alloc: Global,
        crafts: u8,
        cycles: u16,
        pages: usize,
    ) -> Result<Self, AllocError>
        requires { pages ≤ 1000000 }
        ensures entries { IfOk result (λ journal. journal.entries ≡ []) }
        ensures room { IfOk result (λ journal. journal.room ≡ pages * PAGE_NOTES) }
        ensures crafts { IfOk result (λ journal. journal.crafts ≡ crafts) }
        ensures places { IfOk result (λ journal. journal.places ≡ cycles * crafts) }
    {
        let log = Log::new(alloc, pages)?;
        let cells = new_cells(alloc, usize::from(cycles) * usize::from(crafts))?;
        Ok(Journal { log, crafts, cells })
    }

    /// How many entries there are.
    pub(crate) fn len(&self) -> usize
        ensures { result ≡ length self.now.entries }
    {
        self.log.len()
    }

    /// Adds a commit of a cycle that the aircraft hasn't committed yet.
    pub(crate) fn push_commit(&mut self, own: u8, cycle: u16, cells: &Cells)
        requires own { own < self.old.crafts }
        requires first { 1 ≤ cycle }
        requires last { cycle * self.old.crafts ≤ self.old.places }
        requires new { commit_cells self.old.entries own cycle ≡ None }
        requires room { length self.old.entries < self.old.room }
        ensures entries { self.new.entries ≡ kinds.Commit own cycle cells.now ∷ self.old.entries }
        ensures room { self.new.room ≡ self.old.room }
        ensures crafts { self.new.crafts ≡ self.old.crafts }
        ensures places { self.new.places ≡ self.old.places }
    {
        self.log.push(Note::Commit { own, cycle });
        self.cells[place_in(self.crafts, own, cycle)] = *cells;
    }

    /// Adds a send.
    pub(crate) fn push_send(&mut self, own: u8, target: u8, number: u16, word: u64)
        requires { length self.old.entries < self.old.room }
        ensures entries { self.new.entries ≡ kinds.Send own target number word ∷ self.old.entries }
        ensures room { self.new.room ≡ self.old.room }
        ensures crafts { self.new.crafts ≡ self.old.crafts }
        ensures places { self.new.places ≡ self.old.places }
    {
        self.log.push(Note::Send {
            own,
            target,
            number,
            word,
        });
    }

    /// Adds a take.
    pub(crate) fn push_take(&mut self, own: u8, send: u32, copy: u8, good: bool)
        requires { length self.old.entries < self.old.room }
        ensures entries { self.new.entries ≡ kinds.Take own send copy good ∷ self.old.entries }
        ensures room { self.new.room ≡ self.old.room }
        ensures crafts { self.new.crafts ≡ self.old.crafts }
        ensures places { self.new.places ≡ self.old.places }
    {
        self.log.push(Note::Take {
            own,
            send,
            copy,
            good,
        });
    }

    /// The entry at a position, from 0.
    pub(crate) fn entry(&self, at: usize) -> Option<EntryRef<'_>>
        ensures { option_map entry_of result ≡ slice_get (reverse self.now.entries) at }
    {
        match self.log.get(at) {
            Some(note) => Some(entry_of(note, self.crafts, &self.cells)),
            None => None,
        }
    }

    /// The cells of a commit that is there.
    pub(crate) fn cells(&self, own: u8, cycle: u16) -> &Cells
        requires { IsSome (commit_cells self.now.entries own cycle) }
        ensures { commit_cells self.now.entries own cycle ≡ Some result.now }
    {
        &self.cells[place_in(self.crafts, own, cycle)]
    }
}
