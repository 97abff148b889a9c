// The message owed after a commit.
ghost use Rattle.std.specs.Prelude.{◌≡◌};
ghost use Rattle.acas_base.specs.Complements.{complement_of, cancelled_complement};
ghost use Rattle.acas_base.specs.Messages.{cancel_of, message_for};

use acas_base::{Address, Cell, ResMsg, Sense, Vrc};

// The complement that goes with an advisory of this sense.
fn complement_of(sense: Sense) -> Vrc
    ensures { result ≡ complement_of sense }
{
    match sense {
        Sense::Up => Vrc::NotAbove,
        Sense::Down => Vrc::NotBelow,
    }
}

// What a message cancels that sets `vrc` where `said` was said before.
fn cancelled_complement(said: Vrc, vrc: Vrc) -> Vrc
    ensures { result ≡ cancelled_complement said vrc }
{
    match said {
        Vrc::NotBelow => match vrc {
            Vrc::NotAbove => Vrc::NotBelow,
            Vrc::Nil | Vrc::NotBelow => Vrc::Nil,
        },
        Vrc::NotAbove => match vrc {
            Vrc::NotBelow => Vrc::NotAbove,
            Vrc::Nil | Vrc::NotAbove => Vrc::Nil,
        },
        Vrc::Nil => Vrc::Nil,
    }
}

// The message that cancels what was said; none where nothing was said.
fn cancel_of(said: Vrc, many: bool, own: Address) -> Option<ResMsg>
    ensures { result ≡ cancel_of said many own }
{
    match said {
        Vrc::Nil => None,
        Vrc::NotBelow | Vrc::NotAbove => Some(ResMsg {
            many,
            cancel: said,
            vrc: Vrc::Nil,
            sender: own,
        }),
    }
}

/// The message that an aircraft owes another one after a commit (ICAO Annex 10 vol. IV, 4.3). `cell` is its cell for
/// the other one. `said` is the complement that its last message to the other one set. `many` says that the commit has
/// two or more advisories.
///
/// With an advisory the message sets the complement of its sense, and cancels the other complement where that was said.
/// Without an advisory it cancels what was said. None where nothing is owed: without an advisory, and with nothing
/// said.
pub fn next_message(cell: &Cell, said: Vrc, many: bool, own: Address) -> Option<ResMsg>
    ensures { result ≡ message_for cell.now said many own }
{
    match cell {
        Cell::Clear | Cell::Traffic => cancel_of(said, many, own),
        Cell::Ra(intent) => {
            let vrc = complement_of(intent.sense);
            Some(ResMsg {
                many,
                cancel: cancelled_complement(said, vrc),
                vrc,
                sender: own,
            })
        }
    }
}
