// Which words are addresses.
ghost use Rattle.std.specs.Prelude.{◌≡◌, map};
ghost use Rattle.std.specs.List.{list_all, list_any};
ghost use Rattle.std.specs.Str.{bytes_eq};
ghost use Rattle.std.specs.String.{string_bytes};
ghost use Rattle.address_words.specs.Addresses.{are_addresses, are_apart, is_address, is_glyph};

use acas_base::CRAFTS;

// How many digits an address has.
const DIGITS: usize = 6;

fn is_glyph(byte: u8) -> bool
    ensures { result ≡ is_glyph byte }
{
    (b'0' <= byte && byte <= b'9') || (b'A' <= byte && byte <= b'F')
}

fn are_glyphs(bytes: &[u8]) -> bool
    ensures { result ≡ list_all is_glyph bytes.now }
{
    bytes.iter().all(|byte| is_glyph(*byte))
}

fn is_address(word: &str) -> bool
    ensures { result ≡ is_address word.now }
{
    word.len() == DIGITS && are_glyphs(word.as_bytes())
}

// Whether all words are addresses.
fn are_all(words: &[String]) -> bool
    ensures { result ≡ list_all is_address (map string_bytes words.now) }
{
    match words {
        [] => true,
        [word, rest @ ..] => is_address(word.as_str()) && are_all(rest),
    }
}

// Whether a word stands in a list.
fn stands_in(words: &[String], word: &str) -> bool
    ensures { result ≡ list_any (λ other. bytes_eq other word.now) (map string_bytes words.now) }
{
    match words {
        [] => false,
        [other, rest @ ..] => other.as_str() == word || stands_in(rest, word),
    }
}

// Whether no two words are the same.
#[tactic(auto, unfolding(crate::specs::Addresses::are_apart))]
fn are_apart(words: &[String]) -> bool
    ensures { result ≡ are_apart (map string_bytes words.now) }
{
    match words {
        [] => true,
        [word, rest @ ..] => !stands_in(rest, word.as_str()) && are_apart(rest),
    }
}

/// Whether the words are one to sixteen addresses, each of six digits 0-9A-F, and none comes twice.
pub fn are_addresses(words: &[String]) -> bool
    ensures { result ≡ are_addresses (map string_bytes words.now) }
{
    if words.is_empty() || CRAFTS < words.len() {
        return false;
    }
    are_all(words) && are_apart(words)
}
