// Addresses.
ghost use Rattle.std.specs.Prelude.{◌≡◌, ◌≤◌, ◌↔◌, IsSome, IfSome};

use std::marker::Model;

// The greatest address; the next number has all bits set.
const LAST: u32 = 16_777_214;

/// A 24-bit aircraft address, neither all zeros nor all ones (ICAO Annex 10 vol. III).
#[derive(Clone, Copy, Debug, PartialEq, Eq, PartialOrd, Ord)]
pub struct Address {
    value: u32,
}

impl Model for Address {
    ghost use Rattle.std.specs.Prelude.{ℕ, ◌≤◌};

    ghost Value = { ℕ };

    ghost view = { λ a. a.value };

    ghost invariant = { λ a. (1 ≤ a.value) × (a.value ≤ 16777214) };

    ghost inverse = { λ n. record { value = n } };
}

impl Address {
    /// The address of this number; none where the number is 0 or above 16,777,214.
    pub fn new(value: u32) -> Option<Address>
        ensures some { IsSome result ↔ ((1 ≤ value) × (value ≤ 16777214)) }
        ensures value { IfSome result (λ address. address ≡ value) }
    {
        if 1 <= value && value <= LAST {
            Some(Address { value })
        } else {
            None
        }
    }

    /// Its number, 1 to 16,777,214.
    pub fn value(&self) -> u32
        ensures value { result ≡ self.now }
        ensures range { (1 ≤ result) × (result ≤ 16777214) }
    {
        self.value
    }
}
