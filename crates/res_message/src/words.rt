// Words of messages. The places of their fields and the parity are this project's profile.
ghost use Rattle.std.specs.Prelude.{◌≡◌, ◌↔◌, ◌<◌, ◌≤◌};
ghost use Rattle.acas_base.specs.declared.advisory.ResMsg.{ResMsg};
ghost use Rattle.res_message.specs.Words.{code_of, parity_of, bit_of, complement_at, word_of, read_word, flip_word, IsFlipped, Word, IsCodeWord};

use acas_base::{Address, ResMsg, Vrc};

// UDS1, the bits 33 to 36, is 3.
const UDS1: u64 = 3 << 52;

// The lowest bit of each other field that can differ from 0: more than one threat, the cancelled complement, the
// complement that is set, and the parity of these two.
const MTB: u64 = 1 << 46;

const CVC: u64 = 1 << 44;

const VRC: u64 = 1 << 42;

const VSB: u64 = 1 << 24;

fn code(complement: Vrc) -> u64
    ensures value { result ≡ code_of complement }
    ensures bound { result < 3 }
{
    match complement {
        Vrc::Nil => 0,
        Vrc::NotBelow => 1,
        Vrc::NotAbove => 2,
    }
}

// The complement of a field. 3 is no complement, and is read as 2.
fn complement(code: u64) -> Vrc
    ensures { result ≡ complement_at code }
{
    match code {
        0 => Vrc::Nil,
        1 => Vrc::NotBelow,
        _ => Vrc::NotAbove,
    }
}

// The parity of both complements. Each bit has a parity of its own, and they add by exclusive or.
fn parity(cancel: Vrc, vrc: Vrc) -> u64
    ensures value { result ≡ parity_of cancel vrc }
    ensures bound { result < 16 }
{
    let of_cancel = match cancel {
        Vrc::Nil => 0b0000,
        Vrc::NotBelow => 0b1011,
        Vrc::NotAbove => 0b1101,
    };
    let of_vrc = match vrc {
        Vrc::Nil => 0b0000,
        Vrc::NotBelow => 0b1110,
        Vrc::NotAbove => 0b0111,
    };
    of_cancel ^ of_vrc
}

fn bit(many: bool) -> u64
    ensures value { result ≡ bit_of many }
    ensures bound { result < 2 }
{
    u64::from(many)
}

/// The word of a message: the bits 33 to 88 of the interrogation that carries it, bit 33 the highest, in the low 56
/// bits (ICAO Annex 10 vol. IV, 4.3, in this project's profile).
pub fn encode(m: &ResMsg) -> u64
    ensures value { result ≡ word_of m.now }
    ensures word { Word m.now result }
{
    UDS1 + bit(m.many) * MTB
        + code(m.cancel) * CVC
        + code(m.vrc) * VRC
        + parity(m.cancel, m.vrc) * VSB
        + u64::from(m.sender.value())
}

/// The message of a word. None where no message has the word: a bit that belongs to no field is wrong, a complement is
/// 3, the parity is wrong, or the address is all zeros or all ones.
pub fn decode(word: u64) -> Option<ResMsg>
    ensures value { result ≡ read_word word }
    ensures some { (m : ResMsg) → (result ≡ Some m) ↔ Word m word }
    ensures none { (result ≡ None) ↔ ¬ IsCodeWord word }
{
    let sender = Address::new((word % VSB) as u32)?;
    let message = ResMsg {
        many: word / MTB % 2 == 1,
        cancel: complement(word / CVC % 4),
        vrc: complement(word / VRC % 4),
        sender,
    };
    if encode(&message) == word {
        Some(message)
    } else {
        None
    }
}

/// The word with some bits flipped. The bits of the mask, highest first, stand for the bits 43 to 46, which are the two
/// complements, and 61 to 64, which are their parity.
pub fn flip(word: u64, mask: u8) -> u64
    ensures value { result ≡ flip_word word mask }
    ensures fields { IsFlipped word mask result }
{
    let mask = u64::from(mask);
    word ^ (mask / 16 * VRC + mask % 16 * VSB)
}
