// Expected values: by hand from "Records" in docs/FORMATS.md.
use acas_text::{Line, parse, parse_hex};

// A text, and its number where it is a plain decimal.
type Decimal = (&'static [u8], Option<i64>);

const DECIMALS: &[Decimal] = &[
    (b"0", Some(0)),
    (b"-1", Some(-1)),
    (b"007", None),
    (b"-0", None),
    (b"+1", None),
    (b"", None),
    (b"9999999999", Some(9_999_999_999)),
    (b"-9999999999", Some(-9_999_999_999)),
    (b"10000000000", None),
];

// The place of the first text that is read as something else.
fn first_decimal(rows: &[Decimal]) -> Option<usize> {
    for place in 0..rows.len() {
        let (text, want) = rows[place];
        if parse(text) != want {
            return Some(place);
        }
    }
    None
}

#[test]
fn reads_plain_decimals(rt: HostRuntime) {
    assert_eq!(rt; first_decimal(DECIMALS), None);
}

// A text, and its number where it has six digits.
type Digits = (&'static [u8], Option<u64>);

const DIGITS: &[Digits] = &[
    (b"00AB09", Some(0x00AB_09)),
    (b"FFFFFF", Some(0xFF_FFFF)),
    (b"00ab09", None),
    (b"0AB09", None),
    (b"00AB0G", None),
];

// The place of the first text that is read as something else.
fn first_digits(rows: &[Digits]) -> Option<usize> {
    for place in 0..rows.len() {
        let (text, want) = rows[place];
        if parse_hex(text, 6) != want {
            return Some(place);
        }
    }
    None
}

#[test]
fn reads_digits(rt: HostRuntime) {
    assert_eq!(rt; first_digits(DIGITS), None);
}

#[test]
fn collects_parts(rt: HostRuntime) {
    let mut line = Line::new();
    line.text("s,");
    line.i32(i32::MIN);
    line.text(",");
    line.u16(u16::MAX);
    line.text(",");
    line.u32(u32::MAX);
    line.text(",");
    line.address(0x00AB_09);
    line.hex(0x0F, 2);
    assert_eq!(rt;
        line.bytes(),
        b"s,-2147483648,65535,4294967295,00AB090F".as_slice()
    );
}
