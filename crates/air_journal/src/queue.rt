// The copies of one aircraft's messages to another one that wait.
ghost use Rattle.std.specs.Prelude.{◌≡◌, ◌+◌, ◌<◌, ◌≤◌, [], ◌∷◌, ◌++◌, drop, length, vec_capacity, IfOk};
ghost use Rattle.std.specs.List.{remove};

use crate::kept::Waiting;
use std::alloc::{AllocError, Global};
use std::marker::Model;

/// The copies that wait, in order of position and copy. Mostly the first one is taken first: then it is counted, so
/// that the others needn't move. All its memory is taken at the start, by the room that is asked for.
#[derive(Drop)]
pub(crate) struct Queue {
    copies: Vec<Waiting>,
    // How many of them are taken, from the first one on.
    taken: usize,
}

impl Model for Queue {
    ghost use Rattle.std.specs.Prelude.{◌≤◌, drop, length, vec_capacity};
    ghost use Rattle.air_journal.specs.Kept.{Queued};

    ghost Value = { Queued };

    ghost view = { λ q. record { copies = drop q.taken q.copies.items; room = vec_capacity q.copies } };

    ghost invariant = { λ q. q.taken ≤ length q.copies.items };
}

// Gives back the room of the first `count` copies.
fn drop_front(copies: &mut Vec<Waiting>, count: usize)
    requires { count ≤ length copies.old.items }
    ensures items { copies.new.items ≡ drop count copies.old.items }
    ensures capacity { vec_capacity copies.new ≡ vec_capacity copies.old }
{
    let left = copies.len() - count;
    copies.copy_within(count.., 0);
    copies.truncate(left);
}

impl Queue {
    /// An empty queue with room for `room` copies.
    pub(crate) fn new(alloc: Global, room: usize) -> Result<Self, AllocError>
        ensures copies { IfOk result (λ queue. queue.copies ≡ []) }
        ensures room { IfOk result (λ queue. room ≤ queue.room) }
    {
        Ok(Queue {
            copies: Vec::with_capacity(alloc, room)?,
            taken: 0,
        })
    }

    pub(crate) fn push(&mut self, copy: Waiting)
        requires { length self.old.copies < self.old.room }
        ensures copies { self.new.copies ≡ self.old.copies ++ copy ∷ [] }
        ensures room { self.new.room ≡ self.old.room }
    {
        if self.copies.len() >= self.copies.capacity() {
            drop_front(&mut self.copies, self.taken);
            self.taken = 0;
        }
        self.copies.push_reserved(copy);
    }

    pub(crate) fn remove(&mut self, place: usize)
        requires { place < length self.old.copies }
        ensures copies { self.new.copies ≡ remove self.old.copies place }
        ensures room { self.new.room ≡ self.old.room }
    {
        if place > 0 {
            let _ = self.copies.remove(self.taken + place);
            return;
        }
        self.taken += 1;
        if self.taken == self.copies.len() {
            self.copies.clear();
            self.taken = 0;
        }
    }

    pub(crate) fn as_slice(&self) -> &[Waiting]
        ensures { result.now ≡ self.now.copies }
    {
        &self.copies[self.taken..]
    }
}
