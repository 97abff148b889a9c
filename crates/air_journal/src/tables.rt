// What is kept of all aircraft and pairs, and the order of the messages to each aircraft.
ghost use Rattle.std.specs.Prelude.{◌≡◌, ℕ, ◌+◌, ◌<◌, ◌≤◌, [], length, replicate, IfOk, IsTrue, MatchBool, Some};
ghost use Rattle.acas_base.specs.Fates.{copies_of};
ghost use Rattle.acas_base.specs.declared.TheConstants.{CRAFTS};
ghost use Rattle.air_journal.specs.Airs.{air_of};
ghost use Rattle.air_journal.specs.Kept.{AfterCommit, AfterSend, AfterTake, HaveRoom, IsBlank, IsSamePast, copies_from, link_at, made_at, queue_at, read_as, room_at, vrc_of};
ghost use Rattle.air_journal.specs.Orders.{IsQuiet, IsTold, StartsOtherwise, StartsWith};
ghost use Rattle.air_journal.specs.Queues.{AreOrdered};
ghost use Rattle.res_message.specs.Words.{flip_word, read_word};

use crate::crafts::is_ra;
use crate::kept::{Link, Made, Waiting};
use crate::order::{Arrival, Order};
use crate::rows::Rows;
use acas_base::{CRAFTS, Cells, Encounter, Fate, Vrc};
use std::alloc::{AllocError, Global};
use std::marker::Model;

/// What is kept, by [`Rows`]. The orders only save searches.
#[derive(Drop)]
pub(crate) struct Tables {
    rows: Rows,
    orders: Vec<Order>,
}

impl Model for Tables {
    ghost use Rattle.air_journal.specs.Kept.{Kept};
    ghost use Rattle.air_journal.specs.Orders.{AreOrders};

    ghost Value = { Kept };

    ghost view = { λ t. t.rows };

    ghost invariant = { λ t. AreOrders t.rows t.orders.items };
}

/// What the first message to an aircraft tells.
#[derive(Clone, Copy)]
pub(crate) enum Front {
    /// The first copy from this sender is the first that waits.
    Waits(u8),
    /// No copy of it waited, and it was passed over.
    Passed,
    /// No message is known.
    Unknown,
}

// For how many messages to an aircraft there is room: as for copies from one other aircraft.
fn order_room(encounter: &Encounter, own: u8) -> usize {
    if is_ra(encounter, own) {
        3 * usize::from(encounter.cycles())
    } else {
        0
    }
}

fn new_orders(alloc: Global, encounter: &Encounter) -> Result<Vec<Order>, AllocError>
    ensures { IfOk result (λ orders. orders.items ≡ replicate CRAFTS (Some [])) }
{
    let mut orders = Vec::with_capacity(alloc, CRAFTS)?;
    for own in 0..CRAFTS {
        orders.push(Order::new(alloc, order_room(encounter, own as u8))?)?;
    }
    Ok(orders)
}

// Whether the first copy of a queue is of this send.
fn starts_with(queue: &[Waiting], send: u32) -> bool
    ensures { MatchBool result (StartsWith queue.now send) (StartsOtherwise queue.now send) }
{
    match queue.get(0) {
        Some(waiting) => waiting.send == send,
        None => false,
    }
}

impl Tables {
    /// Those of the empty journal of an encounter.
    pub(crate) fn new(alloc: Global, encounter: &Encounter) -> Result<Self, AllocError>
        ensures blank { IfOk result (λ tables. IsBlank tables) }
        ensures room { IfOk result (HaveRoom (air_of encounter.now)) }
    {
        let rows = Rows::new(alloc, encounter)?;
        let orders = new_orders(alloc, encounter)?;
        Ok(Tables { rows, orders })
    }

    pub(crate) fn made(&self, own: u8) -> Made
        requires { own < CRAFTS }
        ensures { result ≡ made_at self.now own }
    {
        self.rows.made(own)
    }

    pub(crate) fn link(&self, own: u8, other: u8) -> Link
        requires own { own < CRAFTS }
        requires other { other < CRAFTS }
        ensures { result ≡ link_at self.now own other }
    {
        self.rows.link(own, other)
    }

    pub(crate) fn has_sent(&self, own: u8, other: u8) -> bool
        requires own { own < CRAFTS }
        requires other { other < CRAFTS }
        ensures { result ≡ (link_at self.now own other).sent }
    {
        self.rows.has_sent(own, other)
    }

    pub(crate) fn queue(&self, sender: u8, receiver: u8) -> &[Waiting]
        requires sender { sender < CRAFTS }
        requires receiver { receiver < CRAFTS }
        ensures { result.now ≡ queue_at self.now sender receiver }
    {
        self.rows.queue(sender, receiver)
    }

    /// Whether no copy waits to be taken by an aircraft, as far as the order of its messages tells.
    pub(crate) fn is_quiet(&self, own: u8) -> bool
        requires { own < CRAFTS }
        ensures { IsTrue result → IsQuiet self.now own }
    {
        self.orders[usize::from(own)].is_over()
    }

    /// Looks at the first message to an aircraft, and passes over it where none of its copies waits.
    pub(crate) fn front(&mut self, own: u8) -> Front
        requires own { own < CRAFTS }
        requires ordered { (sender : ℕ) → sender < CRAFTS → AreOrdered (queue_at self.old sender own) }
        ensures same { self.new ≡ self.old }
        ensures told { IsTold self.old own result }
    {
        let Some(arrival) = self.orders[usize::from(own)].front() else {
            return Front::Unknown;
        };
        if starts_with(self.rows.queue(arrival.sender, own), arrival.send) {
            return Front::Waits(arrival.sender);
        }
        self.orders[usize::from(own)].pass();
        Front::Passed
    }

    /// A message of this complement and word, sent at this position, with the copies of its fate.
    pub(crate) fn send(&mut self, own: u8, target: u8, vrc: Vrc, word: u64, send: u32, fate: &Fate)
        requires own { own < CRAFTS }
        requires target { target < CRAFTS }
        requires word { vrc_of (read_word word) ≡ Some vrc }
        requires sends { (link_at self.old own target).sends < 600 }
        requires commits { (made_at self.old target).commits ≤ 600 }
        requires room { length (queue_at self.old own target) + 3 ≤ room_at self.old own target }
        ensures { AfterSend self.old self.new own target vrc (copies_from (read_as flip_word read_word word) send (made_at self.old target).commits 0 (copies_of fate.now)) }
    {
        self.rows.send(own, target, vrc, word, send, fate);
        self.orders[usize::from(target)].push(Arrival { send, sender: own });
    }

    /// A take of the copy at a place of its queue, of which this complement was read, or none. It is inlined in the
    /// calls of `AirState::take_found`.
    #[inline(always)]
    pub(crate) fn take(&mut self, own: u8, sender: u8, place: usize, reads: Option<Vrc>)
        requires own { own < CRAFTS }
        requires sender { sender < CRAFTS }
        requires place { place < length (queue_at self.old sender own) }
        ensures { AfterTake self.old self.new own sender place reads }
    {
        self.rows.take(own, sender, place, reads);
    }

    /// A commit with these cells, in an encounter of `count` aircraft.
    pub(crate) fn commit(&mut self, own: u8, cells: &Cells, many: bool, count: u8)
        requires own { own < CRAFTS }
        requires commits { (made_at self.old own).commits < 600 }
        requires size { length cells.now.list ≡ CRAFTS }
        requires count { count ≤ CRAFTS }
        requires past { IsSamePast self.old.links own cells.now count }
        ensures { AfterCommit self.old self.new own cells.now many }
    {
        self.rows.commit(own, cells, many, count);
    }
}
