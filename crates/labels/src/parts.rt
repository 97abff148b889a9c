// The two parts of a word, before its first `=` and after it.
ghost use Rattle.std.specs.Prelude.{◌≡◌, ◌<◌, length, IfSome};
ghost use Rattle.std.specs.List.{list_all};
ghost use Rattle.labels.specs.Parts.{equals_in, has_equals, is_mark_key, is_mark_word, is_name, is_name_letter, is_name_word, is_sized, is_text, is_text_letter, key_of, value_of};

use crate::clock::clock_in;
use enc_file::{address_in, count_in};
use memchr::memchr;

/// The most bytes of a name.
pub const NAME_BYTES: usize = 8;

/// The most bytes of a mark's text.
pub const MARK_BYTES: usize = 60;

// Where the first `=` stands.
fn equals_in(word: &[u8]) -> Option<usize>
    ensures place { result ≡ equals_in word.now }
    ensures within { IfSome result (λ at. at < length word.now) }
{
    memchr(b'=', word)
}

fn has_equals(word: &[u8]) -> bool
    ensures { result ≡ has_equals word.now }
{
    equals_in(word).is_some()
}

/// What stands before the first `=` of a word, or all of it where it has none.
pub(crate) fn key_of(word: &[u8]) -> &[u8]
    ensures { result.now ≡ key_of word.now }
{
    match equals_in(word) {
        Some(at) => &word[..at],
        None => word,
    }
}

/// What stands after it, or nothing.
pub(crate) fn value_of(word: &[u8]) -> &[u8]
    ensures { result.now ≡ value_of word.now }
{
    match equals_in(word) {
        Some(at) => &word[at + 1..],
        None => b"",
    }
}

fn is_name_letter(byte: u8) -> bool
    ensures { result ≡ is_name_letter byte }
{
    (65 <= byte && byte <= 90) || (48 <= byte && byte <= 57) || byte == 45
}

// Whether a text has from 1 to so many bytes.
fn is_sized(most: usize, text: &[u8]) -> bool
    ensures { result ≡ is_sized most text.now }
{
    1 <= text.len() && text.len() <= most
}

fn are_name_letters(text: &[u8]) -> bool
    ensures { result ≡ list_all is_name_letter text.now }
{
    text.iter().all(|byte| is_name_letter(*byte))
}

fn are_text_letters(text: &[u8]) -> bool
    ensures { result ≡ list_all is_text_letter text.now }
{
    text.iter().all(|byte| is_text_letter(*byte))
}

#[tactic(auto, unfolding(crate::specs::Parts::is_name))]
fn is_name(text: &[u8]) -> bool
    ensures { result ≡ is_name text.now }
{
    is_sized(NAME_BYTES, text) && are_name_letters(text)
}

fn is_text_letter(byte: u8) -> bool
    ensures { result ≡ is_text_letter byte }
{
    32 <= byte && byte <= 126
}

#[tactic(auto, unfolding(crate::specs::Parts::is_text))]
fn is_text(text: &[u8]) -> bool
    ensures { result ≡ is_text text.now }
{
    is_sized(MARK_BYTES, text) && are_text_letters(text)
}

/// Whether a word is ADDRESS=NAME.
#[tactic(auto, unfolding(crate::specs::Parts::is_name_word))]
pub(crate) fn is_name_word(word: &[u8]) -> bool
    ensures { result ≡ is_name_word word.now }
{
    has_equals(word) && address_in(key_of(word)).is_some() && is_name(value_of(word))
}

#[tactic(auto, unfolding(crate::specs::Parts::is_mark_key))]
fn is_mark_key(start: Option<u32>, key: &[u8]) -> bool
    ensures { result ≡ is_mark_key start key.now }
{
    count_in(key, 1, 600).is_some() || (start.is_some() && clock_in(key).is_some())
}

/// Whether a word is CYCLE=TEXT, or hh:mm:ss=TEXT where there is a clock.
#[tactic(auto, unfolding(crate::specs::Parts::is_mark_word))]
pub(crate) fn is_mark_word(start: Option<u32>, word: &[u8]) -> bool
    ensures { result ≡ is_mark_word start word.now }
{
    has_equals(word) && is_mark_key(start, key_of(word)) && is_text(value_of(word))
}
