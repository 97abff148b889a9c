// What is kept of all aircraft and pairs.
ghost use Rattle.std.specs.Prelude.{◌≡◌, ℕ, ◌+◌, ◌<◌, ◌≤◌, List, [], ◌++◌, length, replicate, IfOk, Some};
ghost use Rattle.acas_base.specs.Fates.{copies_of};
ghost use Rattle.acas_base.specs.declared.TheConstants.{CRAFTS};
ghost use Rattle.air_journal.specs.Kept.{AfterCommit, AfterSend, AfterTake, AreNewQueues, HaveRoom, IsBlank, IsSamePast, RowIs, copies_from, link_at, made_at, no_link, nothing_made, queue_at, read_as, room_at, vrc_of, waiting_copy};
ghost use Rattle.air_journal.specs.Airs.{air_of};
ghost use Rattle.res_message.specs.Words.{flip_word, read_word};

use crate::crafts::room_of;
use crate::kept::{Complement, Link, Made, Waiting};
use crate::queue::Queue;
use acas_base::{CRAFTS, Cell, Cells, CopyPlan, Encounter, Fate, PAIRS, Vrc, pair_of};
use res_message::{decode, flip, read_law};
use std::alloc::{AllocError, Global};
use std::marker::Model;

/// What is kept of each aircraft, and of each of two aircraft against the other one.
#[derive(Drop)]
pub(crate) struct Rows {
    made: Vec<Made>,
    links: Vec<Link>,
    queues: Vec<Queue>,
}

impl Model for Rows {
    ghost use Rattle.air_journal.specs.Kept.{AreTables, Kept, kept_in};

    ghost Value = { Kept };

    ghost view = { λ t. kept_in t.made.items t.links.items t.queues.items };

    ghost invariant = { λ t. AreTables (kept_in t.made.items t.links.items t.queues.items) };
}

fn new_made(alloc: Global) -> Result<Vec<Made>, AllocError>
    ensures { IfOk result (λ made. made.items ≡ replicate CRAFTS nothing_made) }
{
    let nothing = Made {
        commits: 0,
        many: false,
    };
    let mut made = Vec::new(alloc);
    made.resize(CRAFTS, nothing)?;
    Ok(made)
}

fn new_links(alloc: Global) -> Result<Vec<Link>, AllocError>
    ensures { IfOk result (λ links. links.items ≡ replicate 256 no_link) }
{
    let none = Link {
        cell: Cell::Clear,
        said: Vrc::Nil,
        sends: 0,
        sent: false,
        complement: None,
    };
    let mut links = Vec::new(alloc);
    links.resize(PAIRS, none)?;
    Ok(links)
}

fn new_queues(alloc: Global, encounter: &Encounter) -> Result<Vec<Queue>, AllocError>
    ensures { IfOk result (λ queues. AreNewQueues (air_of encounter.now) queues.items) }
{
    let mut queues = Vec::with_capacity(alloc, PAIRS)?;
    for pair in 0..PAIRS {
        let room = room_of(encounter, (pair / CRAFTS) as u8, (pair % CRAFTS) as u8);
        queues.push(Queue::new(alloc, room)?)?;
    }
    Ok(queues)
}

// A message on its way: its word, its complement, the position of its send, and how many commits its receiver has
// made.
#[derive(Clone, Copy)]
struct Message {
    word: u64,
    vrc: Vrc,
    send: u32,
    commits: u16,
}

// The complement that the taker of a copy reads, if it isn't spoilt. Most copies aren't.
fn reads(message: Message, mask: u8) -> Option<Vrc>
    requires { vrc_of (read_word message.word) ≡ Some message.vrc }
    ensures { result ≡ vrc_of (read_word (flip_word message.word mask)) }
{
    read_law();
    if mask == 0 {
        return Some(message.vrc);
    }
    match decode(flip(message.word, mask)) {
        Some(read) => Some(read.vrc),
        None => None,
    }
}

fn copy_of(message: Message, copy: u8, plan: CopyPlan) -> Waiting
    requires word { vrc_of (read_word message.word) ≡ Some message.vrc }
    requires commits { message.commits ≤ 600 }
    ensures { result ≡ waiting_copy (read_as flip_word read_word message.word) message.send message.commits copy plan }
{
    Waiting {
        send: message.send,
        copy,
        due: message.commits + u16::from(plan.hold),
        reads: reads(message, plan.mask),
    }
}

// Puts the copies of a message into its queue.
fn push_copies(queue: &mut Queue, message: Message, fate: &Fate)
    requires room { length queue.old.copies + 3 ≤ queue.old.room }
    requires word { vrc_of (read_word message.word) ≡ Some message.vrc }
    requires commits { message.commits ≤ 600 }
    ensures copies { queue.new.copies ≡ queue.old.copies ++ copies_from (read_as flip_word read_word message.word) message.send message.commits 0 (copies_of fate.now) }
    ensures room { queue.new.room ≡ queue.old.room }
{
    if fate.copies == 0 {
        return;
    }
    queue.push(copy_of(message, 0, fate.first));
    if fate.copies == 1 {
        return;
    }
    queue.push(copy_of(message, 1, fate.second));
    if fate.copies == 2 {
        return;
    }
    queue.push(copy_of(message, 2, fate.third));
}

impl Rows {
    /// Those of the empty journal of an encounter.
    pub(crate) fn new(alloc: Global, encounter: &Encounter) -> Result<Self, AllocError>
        ensures blank { IfOk result (λ tables. IsBlank tables) }
        ensures room { IfOk result (HaveRoom (air_of encounter.now)) }
    {
        let made = new_made(alloc)?;
        let links = new_links(alloc)?;
        let queues = new_queues(alloc, encounter)?;
        Ok(Rows {
            made,
            links,
            queues,
        })
    }

    pub(crate) fn made(&self, own: u8) -> Made
        requires { own < CRAFTS }
        ensures { result ≡ made_at self.now own }
    {
        self.made[usize::from(own)]
    }

    pub(crate) fn link(&self, own: u8, other: u8) -> Link
        requires own { own < CRAFTS }
        requires other { other < CRAFTS }
        ensures { result ≡ link_at self.now own other }
    {
        self.links[pair_of(own, other)]
    }

    pub(crate) fn has_sent(&self, own: u8, other: u8) -> bool
        requires own { own < CRAFTS }
        requires other { other < CRAFTS }
        ensures { result ≡ (link_at self.now own other).sent }
    {
        self.links[pair_of(own, other)].sent
    }

    pub(crate) fn queue(&self, sender: u8, receiver: u8) -> &[Waiting]
        requires sender { sender < CRAFTS }
        requires receiver { receiver < CRAFTS }
        ensures { result.now ≡ queue_at self.now sender receiver }
    {
        self.queues[pair_of(sender, receiver)].as_slice()
    }

    /// A message of this complement and word, sent at this position, with the copies of its fate.
    pub(crate) fn send(&mut self, own: u8, target: u8, vrc: Vrc, word: u64, send: u32, fate: &Fate)
        requires own { own < CRAFTS }
        requires target { target < CRAFTS }
        requires word { vrc_of (read_word word) ≡ Some vrc }
        requires sends { (link_at self.old own target).sends < 600 }
        requires commits { (made_at self.old target).commits ≤ 600 }
        requires room { length (queue_at self.old own target) + 3 ≤ room_at self.old own target }
        ensures { AfterSend self.old self.new own target vrc (copies_from (read_as flip_word read_word word) send (made_at self.old target).commits 0 (copies_of fate.now)) }
    {
        let pair = pair_of(own, target);
        let commits = self.made[usize::from(target)].commits;
        let link = &mut self.links[pair];
        link.said = vrc;
        link.sends += 1;
        link.sent = true;
        let message = Message {
            word,
            vrc,
            send,
            commits,
        };
        push_copies(&mut self.queues[pair], message, fate);
    }

    /// A take of the copy at a place of its queue, of which this complement was read, or none.
    pub(crate) fn take(&mut self, own: u8, sender: u8, place: usize, reads: Option<Vrc>)
        requires own { own < CRAFTS }
        requires sender { sender < CRAFTS }
        requires place { place < length (queue_at self.old sender own) }
        ensures { AfterTake self.old self.new own sender place reads }
    {
        if let Some(vrc) = reads {
            let commits = self.made[usize::from(own)].commits;
            self.links[pair_of(own, sender)].complement = Some(Complement { vrc, commits });
        }
        self.queues[pair_of(sender, own)].remove(place);
    }

    /// A commit with these cells, in an encounter of `count` aircraft.
    pub(crate) fn commit(&mut self, own: u8, cells: &Cells, many: bool, count: u8)
        requires own { own < CRAFTS }
        requires commits { (made_at self.old own).commits < 600 }
        requires size { length cells.now.list ≡ CRAFTS }
        requires count { count ≤ CRAFTS }
        requires past { IsSamePast self.old.links own cells.now count }
        ensures { AfterCommit self.old self.new own cells.now many }
    {
        let commits = self.made[usize::from(own)].commits + 1;
        self.made[usize::from(own)] = Made { commits, many };
        put_cells(&mut self.links, own, cells, count);
    }
}

// Puts new cells into an aircraft's row; nothing was sent since. Past the last aircraft the row stays as it was.
fn put_cells(links: &mut Vec<Link>, own: u8, cells: &Cells, count: u8)
    requires own { own < CRAFTS }
    requires pairs { length links.old.items ≡ 256 }
    requires size { length cells.now.list ≡ CRAFTS }
    requires count { count ≤ CRAFTS }
    requires past { IsSamePast links.old.items own cells.now count }
    ensures { RowIs links.old.items links.new.items own cells.now }
{
    for other in 0..count {
        let pair = pair_of(own, other);
        let link = &mut links[pair];
        link.cell = cells.list[usize::from(other)];
        link.sent = false;
    }
}
