// The aircraft that words name.
ghost use Rattle.std.specs.Prelude.{◌≡◌, ◌<◌, ◌≤◌, IfOk, IfSome, MatchOption, None, Some, length, map, true};
ghost use Rattle.std.specs.List.{list_all};
ghost use Rattle.std.specs.String.{string_bytes};
ghost use Rattle.address_words.specs.Addresses.{index_in, indices_in, is_address, is_among, is_named, unknown_in};

use crate::Among;
use acas_base::CraftSpec;
use acas_text::Line;
use std::alloc::{AllocError, Global};

fn is_among(among: Among, craft: &CraftSpec) -> bool
    ensures { result ≡ is_among among craft.now }
{
    match among {
        Among::Any => true,
        Among::Resolving => craft.kind.resolves(),
    }
}

// Whether a word is the address of one of these aircraft.
fn is_named(among: Among, word: &[u8], craft: &CraftSpec) -> bool
    ensures { result ≡ is_named among word.now craft.now }
{
    let mut line = Line::new();
    line.address(craft.address.value());
    is_among(among, craft) && line.bytes() == word
}

/// The index of the aircraft whose address a word is, among these.
pub fn index_of(crafts: &[CraftSpec], among: Among, word: &[u8]) -> Option<usize>
    ensures value { result ≡ index_in crafts.now among word.now }
    ensures inside { IfSome result (λ index. index < length crafts.now) }
{
    crafts.iter().position(|craft| is_named(among, word, craft))
}

/// The first word that is the address of none of these aircraft. Where all words are addresses, it is one, too.
pub fn first_unknown<'a>(
    crafts: &[CraftSpec],
    among: Among,
    words: &'a [String],
) -> Option<&'a String>
    ensures address { list_all is_address (map string_bytes words.now) ≡ true → IfSome result (λ word. is_address (string_bytes word.now) ≡ true) }
    ensures unknown { MatchOption result (unknown_in crafts.now among (map string_bytes words.now) ≡ None) (λ word. unknown_in crafts.now among (map string_bytes words.now) ≡ Some (string_bytes word.now)) }
{
    match words {
        [] => None,
        [word, rest @ ..] => match index_of(crafts, among, word.as_bytes()) {
            Some(_) => first_unknown(crafts, among, rest),
            None => Some(word),
        },
    }
}

/// The indices of the aircraft whose addresses the words are, in the order of the words. Words that are the address of
/// none of these are left out. The error says that memory was wanting.
pub fn indices(
    alloc: Global,
    crafts: &[CraftSpec],
    among: Among,
    words: &[String],
) -> Result<Vec<u8>, AllocError>
    requires { length crafts.now ≤ 16 }
    ensures { IfOk result (λ list. list.items ≡ indices_in crafts.now among (map string_bytes words.now)) }
{
    let mut list = Vec::new(alloc);
    for word in words {
        if let Some(index) = index_of(crafts, among, word.as_bytes()) {
            list.push(index as u8)?;
        }
    }
    Ok(list)
}
