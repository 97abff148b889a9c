// A list of notes in pages, all taken at the start.
ghost use Rattle.std.specs.Prelude.{◌≡◌, ◌+◌, ◌*◌, ◌<◌, ◌≤◌, [], ◌∷◌, ◌++◌, length, replicate, IfOk, slice_get, option_copied};
ghost use Rattle.air_journal.specs.Pages.{Noted};
ghost use Rattle.air_journal.specs.declared.log.TheConstants.{PAGE_NOTES};

use std::alloc::{AllocError, Global};
use std::marker::Model;

/// An entry as it is kept. The cells of a commit stand in a table of their own.
#[derive(Clone, Copy)]
pub(crate) enum Note {
    Commit {
        own: u8,
        cycle: u16,
    },
    Send {
        own: u8,
        target: u8,
        number: u16,
        word: u64,
    },
    Take {
        own: u8,
        send: u32,
        copy: u8,
        good: bool,
    },
}

/// How many notes a page has room for.
pub(crate) const PAGE_NOTES: usize = 1024;

#[derive(Drop)]
struct Page {
    notes: Vec<Note>,
}

impl Model for Page {
    ghost use Rattle.std.specs.Prelude.{List, ◌≤◌, vec_capacity};
    ghost use Rattle.air_journal.specs.declared.log.TheConstants.{PAGE_NOTES};
    ghost use Rattle.air_journal.specs.declared.log.Note.{Note};

    ghost Value = { List Note };

    ghost view = { λ p. p.notes.items };

    ghost invariant = { λ p. PAGE_NOTES ≤ vec_capacity p.notes };
}

impl Page {
    fn new(alloc: Global) -> Result<Self, AllocError>
        ensures { IfOk result (λ page. page ≡ []) }
    {
        Ok(Page {
            notes: Vec::with_capacity(alloc, PAGE_NOTES)?,
        })
    }

    fn push(&mut self, note: Note)
        requires { length self.old < PAGE_NOTES }
        ensures { self.new ≡ self.old ++ note ∷ [] }
    {
        self.notes.push_reserved(note);
    }

    fn get(&self, at: usize) -> Option<&Note>
        ensures { option_copied result ≡ slice_get self.now at }
    {
        self.notes.get(at)
    }
}

/// Notes in order, and for how many there is room.
#[derive(Drop)]
pub(crate) struct Log {
    pages: Vec<Page>,
    count: usize,
}

impl Model for Log {
    ghost use Rattle.std.specs.Prelude.{◌*◌, length};
    ghost use Rattle.air_journal.specs.Pages.{ArePages, Noted, joined};
    ghost use Rattle.air_journal.specs.declared.log.TheConstants.{PAGE_NOTES};

    ghost Value = { Noted };

    ghost view = { λ l. record { notes = joined l.pages.items; room = length l.pages.items * PAGE_NOTES } };

    ghost invariant = { λ l. ArePages l.pages.items l.count };
}

fn new_pages(alloc: Global, count: usize) -> Result<Vec<Page>, AllocError>
    ensures { IfOk result (λ pages. pages.items ≡ replicate count []) }
{
    let mut pages = Vec::with_capacity(alloc, count)?;
    for _page in 0..count {
        pages.push(Page::new(alloc)?)?;
    }
    Ok(pages)
}

impl Log {
    /// An empty log with room for `pages` pages.
    pub(crate) fn new(alloc: Global, pages: usize) -> Result<Self, AllocError>
        requires { pages ≤ 1000000 }
        ensures notes { IfOk result (λ log. log.notes ≡ []) }
        ensures room { IfOk result (λ log. log.room ≡ pages * PAGE_NOTES) }
    {
        let pages = new_pages(alloc, pages)?;
        Ok(Log { pages, count: 0 })
    }

    pub(crate) fn len(&self) -> usize
        ensures { result ≡ length self.now.notes }
    {
        self.count
    }

    pub(crate) fn push(&mut self, note: Note)
        requires { length self.old.notes < self.old.room }
        ensures notes { self.new.notes ≡ self.old.notes ++ note ∷ [] }
        ensures room { self.new.room ≡ self.old.room }
    {
        let page = self.count / PAGE_NOTES;
        self.pages[page].push(note);
        self.count += 1;
    }

    pub(crate) fn get(&self, at: usize) -> Option<&Note>
        ensures { option_copied result ≡ slice_get self.now.notes at }
    {
        if at >= self.count {
            return None;
        }
        let page = &self.pages[at / PAGE_NOTES];
        page.get(at % PAGE_NOTES)
    }
}
