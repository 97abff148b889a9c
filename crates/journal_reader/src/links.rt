// What is kept of an aircraft against another one.
ghost use Rattle.std.specs.Prelude.{◌≡◌, ◌<◌, length, replicate};
ghost use Rattle.acas_base.specs.declared.TheConstants.{CRAFTS};
ghost use Rattle.journal_reader.specs.Links.{PairIs, RowIs, no_link, run_after};

use acas_base::{CRAFTS, Cell, Cells, PAIRS, Vrc, pair_of};

/// A take of an undamaged copy of another aircraft's message.
#[derive(Clone, Copy)]
pub struct GoodTake {
    /// The position of the take in the journal.
    pub at: u32,
    /// The position of the send that it took a copy of.
    pub send: u32,
    /// The complement, as it was taken.
    pub vrc: Vrc,
    /// How many cycles the taker had committed then.
    pub commits: u16,
}

/// What the entries so far say of an aircraft against another one: its cell in the last commit, where its present run
/// began, and its last good take of a message of the other one, now and before its last commit.
#[derive(Clone, Copy)]
pub(crate) struct Link {
    pub cell: Cell,
    pub run: Option<u32>,
    pub taken: Option<GoodTake>,
    pub bound: Option<GoodTake>,
}

/// No entry speaks of any pair yet.
pub(crate) fn no_links() -> [Link; PAIRS]
    ensures { result ≡ replicate 256 no_link }
{
    let link = Link {
        cell: Cell::Clear,
        run: None,
        taken: None,
        bound: None,
    };
    [link; PAIRS]
}

// Where an aircraft's run began, after a commit at this position with this cell.
fn run_after(link: &Link, cell: Cell, at: u32) -> Option<u32>
    ensures { result ≡ run_after link.now cell at }
{
    let sense = cell.sense()?;
    if link.cell.has_sense(sense) {
        link.run
    } else {
        Some(at)
    }
}

/// A commit of an aircraft, at this position.
pub(crate) fn note_commit(links: &mut [Link; PAIRS], own: u8, cells: &Cells, at: u32)
    requires own { own < CRAFTS }
    requires size { length cells.now.list ≡ CRAFTS }
    ensures { RowIs links.old links.new own cells.now at }
{
    for other in 0..CRAFTS as u8 {
        let pair = pair_of(own, other);
        let link = links[pair];
        let cell = cells.list[usize::from(other)];
        links[pair] = Link {
            cell,
            run: run_after(&link, cell, at),
            taken: link.taken,
            bound: link.taken,
        };
    }
}

/// A good take by an aircraft of a message of another one.
pub(crate) fn note_take(links: &mut [Link; PAIRS], own: u8, sender: u8, taken: GoodTake)
    requires own { own < CRAFTS }
    requires sender { sender < CRAFTS }
    ensures { PairIs links.old links.new own sender taken }
{
    let pair = pair_of(own, sender);
    let link = links[pair];
    links[pair] = Link {
        cell: link.cell,
        run: link.run,
        taken: Some(taken),
        bound: link.bound,
    };
}
