// The aircraft that a field names.
ghost use Rattle.std.specs.Prelude.{◌≡◌, ◌<◌, ◌≤◌, IfSome, length};
ghost use Rattle.enc_file.specs.Earlier.{index_of};
ghost use Rattle.idle_notes.specs.Noted.{named_in, with_index};

use acas_base::{Address, CraftSpec};
use enc_file::address_in;

/// An aircraft, by its address and its index.
#[derive(Clone, Copy)]
pub(crate) struct Named {
    pub(crate) address: Address,
    pub(crate) index: u8,
}

// The index of the aircraft with an address.
fn index_of(crafts: &[CraftSpec], address: Address) -> Option<usize>
    ensures { result ≡ index_of crafts.now address }
{
    crafts.iter().position(|craft| craft.address == address)
}

// The aircraft with an address.
fn with_index(crafts: &[CraftSpec], address: Address) -> Option<Named>
    requires { length crafts.now ≤ 16 }
    ensures value { result ≡ with_index crafts.now address }
    ensures there { IfSome result (λ named. named.index < length crafts.now) }
{
    match index_of(crafts, address) {
        Some(index) => Some(Named {
            address,
            index: index as u8,
        }),
        None => None,
    }
}

/// The aircraft whose address stands in a field.
pub(crate) fn named_in(crafts: &[CraftSpec], found: &[u8]) -> Option<Named>
    requires { length crafts.now ≤ 16 }
    ensures value { result ≡ named_in crafts.now found.now }
    ensures there { IfSome result (λ named. named.index < length crafts.now) }
{
    match address_in(found) {
        Some(address) => with_index(crafts, address),
        None => None,
    }
}
