// The order of the messages to an aircraft.
ghost use Rattle.std.specs.Prelude.{◌≡◌, ◌<◌, Some, [], IfOk, IfSome, IsTrue};
ghost use Rattle.acas_base.specs.declared.TheConstants.{CRAFTS};
ghost use Rattle.air_journal.specs.Orders.{IsFront, Pushed, without_front};

use std::alloc::{AllocError, Global};
use std::marker::Model;

/// A message to an aircraft: the position of its send, and its sender.
#[derive(Clone, Copy)]
pub(crate) struct Arrival {
    pub send: u32,
    pub sender: u8,
}

/// The messages to an aircraft of which copies may wait, in order of their sends: the first of them tells the
/// first copy that waits, with no search. Where more wait than there is room for, the order isn't known any
/// more. All its memory is taken at the start.
#[derive(Drop)]
pub(crate) struct Order {
    messages: Vec<Arrival>,
    // How many of them are over.
    passed: usize,
    // No send is later than this.
    last: u32,
    known: bool,
}

impl Model for Order {
    ghost use Rattle.std.specs.Prelude.{List, Option};
    ghost use Rattle.air_journal.specs.Orders.{IsOrder, order_in};
    ghost use Rattle.air_journal.specs.declared.order.Arrival.{Arrival};

    ghost Value = { Option (List Arrival) };

    ghost view = { λ o. order_in o.known o.passed o.messages.items };

    ghost invariant = { λ o. IsOrder o.passed o.last o.messages.items };
}

impl Order {
    /// The order of no message, with room for `room` messages.
    pub(crate) fn new(alloc: Global, room: usize) -> Result<Self, AllocError>
        ensures { IfOk result (λ order. order ≡ Some []) }
    {
        Ok(Order {
            messages: Vec::with_capacity(alloc, room)?,
            passed: 0,
            last: 0,
            known: true,
        })
    }

    /// The first message, where the order is known and has one.
    pub(crate) fn front(&self) -> Option<Arrival>
        ensures { IfSome result (IsFront self.now) }
    {
        if !self.known {
            return None;
        }
        if self.passed >= self.messages.len() {
            return None;
        }
        Some(self.messages[self.passed])
    }

    /// Whether the order is known and has no message.
    pub(crate) fn is_over(&self) -> bool
        ensures { IsTrue result → self.now ≡ Some [] }
    {
        if !self.known {
            return false;
        }
        self.passed >= self.messages.len()
    }

    /// Passes over the first message.
    pub(crate) fn pass(&mut self)
        ensures { self.new ≡ without_front self.old }
    {
        if self.passed < self.messages.len() {
            self.passed += 1;
        }
    }

    // Gives back the room of the messages that are over, once all are.
    fn clear(&mut self)
        ensures { self.new ≡ self.old }
    {
        if self.passed >= self.messages.len() {
            self.messages.clear();
            self.passed = 0;
        }
    }

    /// Adds a message at the end.
    pub(crate) fn push(&mut self, arrival: Arrival)
        requires { arrival.sender < CRAFTS }
        ensures { Pushed self.old arrival self.new }
    {
        self.clear();
        if self.messages.len() >= self.messages.capacity() {
            self.known = false;
            return;
        }
        if arrival.send <= self.last {
            self.known = false;
            return;
        }
        self.messages.push_reserved(arrival);
        self.last = arrival.send;
    }
}
