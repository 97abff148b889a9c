// What is slightly wrong with a number or an address, as far as a user tells it apart.
ghost use Rattle.std.specs.Prelude.{◌≡◌, ◌≤◌, length};
ghost use Rattle.std.specs.List.{list_any};
ghost use Rattle.fault_text.specs.Hints.{address_hint, are_among, has_digit, is_among, is_counting, is_digit, is_padded, is_plain_number, is_pointed, is_reserved, is_small, number_hint};

fn is_digit(byte: u8) -> bool
    ensures { result ≡ is_digit byte }
{
    48 <= byte && byte <= 57
}

// Whether a byte is a digit or one of the others.
fn is_among(others: &[u8], byte: u8) -> bool
    ensures { result ≡ is_among others.now byte }
{
    is_digit(byte) || others.contains(&byte)
}

// Whether each byte is a digit or one of the others.
fn are_among(others: &[u8], found: &[u8]) -> bool
    ensures { result ≡ are_among others.now found.now }
{
    for byte in found {
        if !is_among(others, *byte) {
            return false;
        }
    }
    true
}

fn has_digit(found: &[u8]) -> bool
    ensures { result ≡ has_digit found.now }
{
    for byte in found {
        if is_digit(*byte) {
            return true;
        }
    }
    false
}

// Whether these are digits without a zero in front.
fn is_counting(found: &[u8]) -> bool
    ensures { result ≡ is_counting found.now }
{
    match found {
        [] => false,
        [first, ..] => *first != b'0' && are_among(b"", found),
    }
}

// Whether a field is a plain decimal of any length.
fn is_plain_number(found: &[u8]) -> bool
    ensures { result ≡ is_plain_number found.now }
{
    match found {
        [] => false,
        [b'-', digits @ ..] => is_counting(digits),
        _ => is_counting(found) || found == b"0".as_slice(),
    }
}

fn is_padded(found: &[u8]) -> bool
    ensures { result ≡ is_padded found.now }
{
    if !has_digit(found) {
        return false;
    }
    are_among(b" +-", found) && !is_plain_number(found)
}

fn is_pointed(found: &[u8]) -> bool
    ensures { result ≡ is_pointed found.now }
{
    if !has_digit(found) {
        return false;
    }
    are_among(b"-.", found) && !are_among(b"-", found)
}

/// What may be said of a field that is no number of its range.
pub fn number_hint(found: &[u8]) -> &'static str
    ensures text { result.now ≡ number_hint found.now }
    ensures short { length result.now ≤ 44 }
{
    if is_padded(found) {
        return ", without a space, a sign or a zero too many";
    }
    if is_pointed(found) {
        return ", without a point";
    }
    ""
}

// Whether there is a letter a-f.
fn has_small(found: &[u8]) -> bool
    ensures { result ≡ list_any is_small found.now }
{
    for byte in found {
        if 97 <= *byte && *byte <= 102 {
            return true;
        }
    }
    false
}

fn is_reserved(found: &[u8]) -> bool
    ensures { result ≡ is_reserved found.now }
{
    found == b"000000".as_slice() || found == b"FFFFFF".as_slice()
}

/// What may be said of a field that is no address.
pub(crate) fn address_hint(found: &[u8]) -> &'static str
    ensures text { result.now ≡ address_hint found.now }
    ensures short { length result.now ≤ 31 }
{
    if has_small(found) {
        return ", and no small letters";
    }
    if is_reserved(found) {
        return ", and neither 000000 nor FFFFFF";
    }
    ""
}
