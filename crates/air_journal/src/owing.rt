// The messages that are owed, by what is kept.
ghost use Rattle.std.specs.Prelude.{◌≡◌, ◌<◌, ◌≤◌, MatchOption, length};
ghost use Rattle.acas_base.specs.declared.TheConstants.{CRAFTS};
ghost use Rattle.air_journal.specs.Airs.{air_of};
ghost use Rattle.air_journal.specs.Found.{IsFirstOwedBy, NothingOwedBy, owed_in};
ghost use Rattle.craft_view.specs.Sight.{address_of};

use crate::crafts::{count_of, is_ra};
use crate::tables::Tables;
use acas_base::{Address, Encounter, ResMsg};
use coord_core::next_message;

/// A message that is owed, and to whom.
#[derive(Clone, Copy)]
pub(crate) struct Owing {
    pub target: u8,
    pub message: ResMsg,
}

// The message that an aircraft of this address owes another one.
fn owed_to(
    encounter: &Encounter,
    tables: &Tables,
    own: u8,
    address: Address,
    target: u8,
) -> Option<ResMsg>
    requires own { own < CRAFTS }
    requires target { target < CRAFTS }
    requires address { address ≡ address_of encounter.now own }
    ensures { result ≡ owed_in (air_of encounter.now) tables.now own target }
{
    if tables.has_sent(own, target) {
        return None;
    }
    let link = tables.link(own, target);
    if is_ra(encounter, own) && is_ra(encounter, target) && own != target && !link.sent {
        next_message(&link.cell, link.said, tables.made(own).many, address)
    } else {
        None
    }
}

/// The first message that an aircraft owes.
pub(crate) fn first_owed(encounter: &Encounter, tables: &Tables, own: u8) -> Option<Owing>
    requires { own < length encounter.now.crafts }
    ensures { MatchOption result (NothingOwedBy (air_of encounter.now) tables.now own (length encounter.now.crafts)) (λ owing. IsFirstOwedBy (air_of encounter.now) tables.now own owing.target owing.message) }
{
    if !is_ra(encounter, own) {
        return None;
    }
    let count = count_of(encounter);
    let address = encounter.crafts()[usize::from(own)].address;
    for target in 0..count {
        if let Some(message) = owed_to(encounter, tables, own, address, target) {
            return Some(Owing { target, message });
        }
    }
    None
}
