// What an encounter and its aircraft are called.
ghost use Rattle.std.specs.Prelude.{◌≡◌, ◌↔◌, IsSome, IfSome, IsTrue, replicate};
ghost use Rattle.std.specs.List.{list_all};
ghost use Rattle.acas_base.specs.Labels.{is_call_sign, is_hexadecimal, is_label, is_label_letter, is_name, is_name_letter, is_sized, is_text_letter};

use std::marker::Model;

/// The most bytes of a label.
pub const LABEL_BYTES: usize = 60;

/// The most bytes of a name.
pub const NAME_BYTES: usize = 8;

/// A text of 1 to 60 bytes from 20 to 7E hex, none of them a comma.
#[derive(Clone, Copy)]
pub struct Label {
    // The bytes behind the text are 0.
    bytes: [u8; LABEL_BYTES],
    len: usize,
}

impl Model for Label {
    ghost use Rattle.std.specs.Prelude.{◌≡◌, ℕ, ◌-◌, ◌≤◌, ◌++◌, List, IsTrue, drop, length, replicate, take};
    ghost use Rattle.acas_base.specs.Labels.{is_label};
    ghost use Rattle.std.proofs.Common.{arith, ap, sym, ◌∙◌, take-append-drop, length-take-le};

    ghost Value = { List ℕ };

    ghost view = { λ a. take a.len a.bytes };

    ghost invariant = { λ a. (length a.bytes ≡ 60) × (a.len ≤ 60) × (drop a.len a.bytes ≡ replicate (60 - a.len) 0) × IsTrue (is_label (take a.len a.bytes)) };

    ghost inverse = { λ text. record { bytes = text ++ replicate (60 - length text) 0; len = length text } };

    ghost inverse_ok = { λ a h i. record {
      bytes = (ap (λ n. take a.len a.bytes ++ replicate (60 - n) 0) (length-take-le a.len a.bytes (omega (arith, h.0, h.1))) ∙ ap (λ rest. take a.len a.bytes ++ rest) (sym h.2) ∙ take-append-drop a.len a.bytes) i;
      len = length-take-le a.len a.bytes (omega (arith, h.0, h.1)) i;
    } };
}

impl Label {
    /// The label of this text. None where it has another length or another byte.
    pub fn new(text: &[u8]) -> Option<Label>
        ensures some { IsSome result ↔ IsTrue (is_label text.now) }
        ensures value { IfSome result (λ label. label ≡ text.now) }
    {
        if !is_label(text) {
            return None;
        }
        let mut bytes = no_bytes();
        bytes[..text.len()].copy_from_slice(text);
        Some(Label {
            bytes,
            len: text.len(),
        })
    }

    /// Its text.
    pub fn bytes(&self) -> &[u8]
        ensures value { result.now ≡ self.now }
        ensures label { IsTrue (is_label self.now) }
    {
        &self.bytes[..self.len]
    }
}

/// What the aircraft with index `craft` is called: its call sign.
#[derive(Clone, Copy)]
pub struct Call {
    pub craft: u8,
    pub sign: Label,
}

// For the proof: a name for so many zeros.
fn no_bytes() -> [u8; LABEL_BYTES]
    ensures { result ≡ replicate 60 0 }
{
    [0; LABEL_BYTES]
}

// Whether a text has from 1 to so many bytes.
fn is_sized(most: usize, text: &[u8]) -> bool
    ensures { result ≡ is_sized most text.now }
{
    1 <= text.len() && text.len() <= most
}

fn is_text_letter(byte: u8) -> bool
    ensures { result ≡ is_text_letter byte }
{
    32 <= byte && byte <= 126
}

fn is_label_letter(byte: u8) -> bool
    ensures { result ≡ is_label_letter byte }
{
    is_text_letter(byte) && byte != b','
}

fn are_label_letters(text: &[u8]) -> bool
    ensures { result ≡ list_all is_label_letter text.now }
{
    text.iter().all(|byte| is_label_letter(*byte))
}

/// Whether a text is that of a label.
#[tactic(auto, unfolding(crate::specs::Labels::is_label))]
pub fn is_label(text: &[u8]) -> bool
    ensures { result ≡ is_label text.now }
{
    is_sized(LABEL_BYTES, text) && are_label_letters(text)
}

fn is_name_letter(byte: u8) -> bool
    ensures { result ≡ is_name_letter byte }
{
    (65 <= byte && byte <= 90) || (48 <= byte && byte <= 57) || byte == 45
}

fn are_name_letters(text: &[u8]) -> bool
    ensures { result ≡ list_all is_name_letter text.now }
{
    text.iter().all(|byte| is_name_letter(*byte))
}

/// Whether a text is a name: 1 to 8 of A-Z, 0-9 and `-`.
#[tactic(auto, unfolding(crate::specs::Labels::is_name))]
pub fn is_name(text: &[u8]) -> bool
    ensures { result ≡ is_name text.now }
{
    is_sized(NAME_BYTES, text) && are_name_letters(text)
}

fn is_hexadecimal(byte: u8) -> bool
    ensures { result ≡ is_hexadecimal byte }
{
    (48 <= byte && byte <= 57) || (65 <= byte && byte <= 70)
}

fn are_hexadecimal(text: &[u8]) -> bool
    ensures { result ≡ list_all is_hexadecimal text.now }
{
    text.iter().all(|byte| is_hexadecimal(*byte))
}

/// Whether a text is a call sign: a name, and not the six digits of an address.
#[tactic(auto, unfolding(crate::specs::Labels::is_call_sign))]
pub fn is_call_sign(text: &[u8]) -> bool
    ensures { result ≡ is_call_sign text.now }
{
    is_name(text) && !(text.len() == 6 && are_hexadecimal(text))
}
