//! The journal of an encounter, shared by the threads of its aircraft.
//!
//! Each active aircraft has a [`Seat`]. A call of a seat waits for its turn. While it has the turn, it has the state of
//! the air for itself. Then the turn goes to the next call. So all calls stand in one journal, each in its place,
//! whichever threads make them (`specs/Seats`). It is a ticket lock. The rule of its atomic steps is in `specs/Rule`,
//! and what a seat knows after each step is in `specs/Told`.
#![tactic(auto)]

mod air;
mod closing;
mod opening;
mod seat;
mod steps;
mod turn;
mod view;

pub use air::Air;
pub use seat::Seat;
