// Which words are the clock, names and marks.
ghost use Rattle.std.specs.Prelude.{◌≡◌, ◌≤◌, ◌<◌, length, map, None, Some, MatchOption};
ghost use Rattle.std.specs.Option.{ForSome};
ghost use Rattle.std.specs.String.{string_bytes};
ghost use Rattle.labels.specs.Labels.{after_start, are_apart, are_marks, is_keyed, name_count, start_in, value_with};

use crate::clock::clock_in;
use crate::parts::{is_mark_word, is_name_word, key_of, value_of};

/// The clock, where the first word is a time of day.
pub(crate) fn start_in(words: &[String]) -> Option<u32>
    ensures start { result ≡ start_in (map string_bytes words.now) }
    ensures day { ForSome result (λ second. second < 86400) }
{
    match words {
        [] => None,
        [word, ..] => clock_in(word.as_bytes()),
    }
}

/// The words after it.
pub(crate) fn after_start(words: &[String]) -> &[String]
    ensures { map string_bytes result.now ≡ after_start (map string_bytes words.now) }
{
    match words {
        [] => words,
        [word, rest @ ..] => {
            if clock_in(word.as_bytes()).is_some() {
                rest
            } else {
                words
            }
        }
    }
}

/// How many words give names, from the first one on.
pub(crate) fn name_count(words: &[String]) -> usize
    ensures value { result ≡ name_count (map string_bytes words.now) }
    ensures within { result ≤ length words.now }
{
    match words {
        [] => 0,
        [word, rest @ ..] => {
            if is_name_word(word.as_bytes()) {
                name_count(rest) + 1
            } else {
                0
            }
        }
    }
}

// Whether some word has this key.
fn is_keyed(words: &[String], key: &[u8]) -> bool
    ensures { result ≡ is_keyed (map string_bytes words.now) key.now }
{
    match words {
        [] => false,
        [word, rest @ ..] => key_of(word.as_bytes()) == key || is_keyed(rest, key),
    }
}

/// Whether no two words have one key.
pub(crate) fn are_apart(words: &[String]) -> bool
    ensures { result ≡ are_apart (map string_bytes words.now) }
{
    match words {
        [] => true,
        [word, rest @ ..] => !is_keyed(rest, key_of(word.as_bytes())) && are_apart(rest),
    }
}

/// Whether all words are marks.
pub(crate) fn are_marks(start: Option<u32>, words: &[String]) -> bool
    ensures { result ≡ are_marks start (map string_bytes words.now) }
{
    match words {
        [] => true,
        [word, rest @ ..] => is_mark_word(start, word.as_bytes()) && are_marks(start, rest),
    }
}

/// The value of the first word with a key.
pub(crate) fn value_with<'a>(words: &'a [String], key: &[u8]) -> Option<&'a [u8]>
    ensures { MatchOption result (value_with (map string_bytes words.now) key.now ≡ None) (λ value. value_with (map string_bytes words.now) key.now ≡ Some value.now) }
{
    match words {
        [] => None,
        [word, rest @ ..] => {
            if key_of(word.as_bytes()) == key {
                Some(value_of(word.as_bytes()))
            } else {
                value_with(rest, key)
            }
        }
    }
}
