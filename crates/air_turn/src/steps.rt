// The atomic steps on the table. After each its seat knows what `specs/Told` says.
ghost use Rattle.air_turn.specs.Told.{confirmed, drew, first_alone, gave, joined, looked, note_of, raised, spent, told, without_first};

use crate::view::Knowledge;
use air_journal::AirState;
use atomic_table::{Join, Play, Split};
use std::marker::{Brand, PhantomData};

/// The seat draws a ticket.
pub(crate) struct Draw;

impl Play<Option<AirState>, Knowledge> for Draw {
    ghost then = { drew };
}

/// A look at the serving word of the seat's ticket.
pub(crate) struct Look;

impl Play<Option<AirState>, Knowledge> for Look {
    ghost then = { looked };
}

/// A type that names, for contracts alone, the journal after a call.
pub(crate) trait After {
    ghost use Rattle.std.specs.Prelude.{List};
    ghost use Rattle.acas_base.specs.declared.entry.Entry.{Entry};

    ghost journal: { List Entry };
}

impl After for Brand {
    ghost use Rattle.std.specs.Prelude.{[]};

    ghost journal = { [] };
}

/// The call is counted. The journal is now the one that `N` names.
pub(crate) struct Raise<N> {
    after: PhantomData<N>,
}

impl<N: After> Play<Option<AirState>, Knowledge> for Raise<N> {
    ghost then = { raised N.journal };
}

/// The seat gives the turn to the next ticket.
pub(crate) struct Give;

impl Play<Option<AirState>, Knowledge> for Give {
    ghost then = { gave };
}

/// A look at the table. It confirms what a seat knows after it learned from a note.
pub(crate) struct Confirm;

impl Play<Option<AirState>, Knowledge> for Confirm {
    ghost then = { confirmed };
}

/// The first claim of a seat goes to a seat of its own.
pub(crate) struct SplitFirst;

impl Split<Knowledge> for SplitFirst {
    ghost left = { without_first };

    ghost right = { first_alone };
}

/// One seat takes over the claims of another one.
pub(crate) struct JoinSeats;

impl Join<Knowledge> for JoinSeats {
    ghost both = { joined };

    ghost spent = { spent };
}

/// A note of what a seat has seen.
pub(crate) struct Note;

impl Split<Knowledge> for Note {
    ghost left = { λ v. v };

    ghost right = { note_of };
}

impl Join<Knowledge> for Note {
    ghost both = { told };

    ghost spent = { spent };
}
