// Short lines, as they are made.
ghost use Rattle.std.specs.Prelude.{◌≡◌, ◌+◌, ◌≤◌, ◌<◌, ◌^◌, ◌∷◌, ◌++◌, [], length};
ghost use Rattle.std.specs.Fmt.{decimal, signed_decimal};
ghost use Rattle.std.specs.Str.Parse.{digits_value};
ghost use Rattle.acas_text.specs.Fields.{if_any, mark, with_point};
ghost use Rattle.acas_text.specs.Hex.{hex};

use crate::decimal::count_digits;
use crate::hexadecimal::write_hex;
use itoa::write_digits;
use std::marker::Model;

/// The most bytes that a line holds.
pub const LINE_BYTES: usize = 512;

/// The most bytes that `Line::u16` adds.
pub const U16_BYTES: usize = 5;

/// The most bytes that `Line::u32` adds.
pub const U32_BYTES: usize = 10;

/// The most bytes that `Line::i32` adds.
pub const I32_BYTES: usize = 11;

/// The most bytes that `Line::tenths` adds: a sign, a number, the point and a digit.
pub const TENTHS_BYTES: usize = 2 + U32_BYTES + U16_BYTES;

/// The bytes that `Line::address` adds.
pub const ADDRESS_BYTES: usize = 6;

/// A text of at most `LINE_BYTES` bytes, made part by part. Each call that adds a part requires that it still fits.
#[derive(Drop)]
pub struct Line {
    bytes: [u8; LINE_BYTES],
    len: usize,
}

impl Model for Line {
    ghost use Rattle.std.specs.Prelude.{ℕ, List, ◌≤◌, take};
    ghost use Rattle.acas_text.specs.declared.line.TheConstants.{LINE_BYTES};

    ghost Value = { List ℕ };

    ghost view = { λ a. take a.len a.bytes };

    ghost invariant = { λ a. a.len ≤ LINE_BYTES };
}

impl Line {
    /// An empty line.
    pub fn new() -> Line
        ensures { result ≡ [] }
    {
        Line {
            bytes: [0; LINE_BYTES],
            len: 0,
        }
    }

    /// Empties it.
    pub fn clear(&mut self)
        ensures { self.new ≡ [] }
    {
        self.len = 0;
    }

    /// Adds a number as a plain decimal.
    pub fn u16(&mut self, value: u16)
        requires { length self.old + U16_BYTES ≤ LINE_BYTES }
        ensures added { self.new ≡ self.old ++ decimal value }
        ensures short { length self.new ≤ length self.old + U16_BYTES }
    {
        self.number(u64::from(value));
    }

    /// Adds a number as a plain decimal.
    pub fn u32(&mut self, value: u32)
        requires { length self.old + U32_BYTES ≤ LINE_BYTES }
        ensures added { self.new ≡ self.old ++ decimal value }
        ensures short { length self.new ≤ length self.old + U32_BYTES }
    {
        self.number(u64::from(value));
    }

    /// Adds a number as a plain decimal.
    pub fn i32(&mut self, value: i32)
        requires { length self.old + I32_BYTES ≤ LINE_BYTES }
        ensures added { self.new ≡ self.old ++ signed_decimal value }
        ensures short { length self.new ≤ length self.old + I32_BYTES }
    {
        if value < 0 {
            self.push(b'-');
        }
        self.number(u64::from(value.unsigned_abs()));
    }

    /// Adds a number of tenths, with one digit after the point.
    pub fn tenths(&mut self, tenths: i32)
        requires { length self.old + TENTHS_BYTES ≤ LINE_BYTES }
        ensures added { self.new ≡ self.old ++ with_point tenths }
        ensures short { length self.new ≤ length self.old + TENTHS_BYTES }
    {
        if tenths < 0 {
            self.text("-");
        }
        let size = tenths.unsigned_abs();
        self.u32(size / 10);
        self.text(".");
        self.u16((size % 10) as u16);
    }

    /// Adds the number of an address, in six hexadecimal digits 0-9A-F.
    pub fn address(&mut self, value: u32)
        requires fits { value < 2 ^ 24 }
        requires room { length self.old + ADDRESS_BYTES ≤ LINE_BYTES }
        ensures added { self.new ≡ self.old ++ hex 6 value }
        ensures short { length self.new ≤ length self.old + ADDRESS_BYTES }
    {
        self.hex(u64::from(value), 6);
    }

    /// Adds a number in `digits` hexadecimal digits, 0-9A-F, the highest first. The number may have no more digits than
    /// that.
    pub fn hex(&mut self, value: u64, digits: u8)
        requires few { digits ≤ 16 }
        requires fits { value < 16 ^ digits }
        requires room { length self.old + digits ≤ LINE_BYTES }
        ensures added { self.new ≡ self.old ++ hex digits value }
        ensures longer { length self.new ≡ length self.old + digits }

        // No digit is missing: what was added reads as the number.
        ensures whole { digits_value 16 (hex digits value) ≡ value }
    {
        let count = usize::from(digits);
        let end = self.len + count;
        write_hex(&mut self.bytes[self.len..end], value);
        self.len += count;
    }

    /// Adds a text.
    pub fn text(&mut self, piece: &str)
        requires { length self.old + length piece.now ≤ LINE_BYTES }
        ensures added { self.new ≡ self.old ++ piece.now }
        ensures longer { length self.new ≡ length self.old + length piece.now }
    {
        self.add(piece.as_bytes());
    }

    /// Adds one byte.
    pub fn byte(&mut self, byte: u8)
        requires { length self.old + 1 ≤ LINE_BYTES }
        ensures added { self.new ≡ self.old ++ byte ∷ [] }
        ensures longer { length self.new ≡ length self.old + 1 }
    {
        self.push(byte);
    }

    /// Adds a comma and a number as a plain decimal.
    pub fn u16_field(&mut self, value: u16)
        requires { length self.old + 1 + U16_BYTES ≤ LINE_BYTES }
        ensures added { self.new ≡ self.old ++ 44 ∷ decimal value }
        ensures short { length self.new ≤ length self.old + 1 + U16_BYTES }
    {
        self.push(b',');
        self.u16(value);
    }

    /// Adds a comma and a number as a plain decimal.
    pub fn u32_field(&mut self, value: u32)
        requires { length self.old + 1 + U32_BYTES ≤ LINE_BYTES }
        ensures added { self.new ≡ self.old ++ 44 ∷ decimal value }
        ensures short { length self.new ≤ length self.old + 1 + U32_BYTES }
    {
        self.push(b',');
        self.u32(value);
    }

    /// Adds a comma and a number as a plain decimal.
    pub fn i32_field(&mut self, value: i32)
        requires { length self.old + 1 + I32_BYTES ≤ LINE_BYTES }
        ensures added { self.new ≡ self.old ++ 44 ∷ signed_decimal value }
        ensures short { length self.new ≤ length self.old + 1 + I32_BYTES }
    {
        self.push(b',');
        self.i32(value);
    }

    /// Adds a comma and a number of tenths, with one digit after the point.
    pub fn tenths_field(&mut self, tenths: i32)
        requires { length self.old + 1 + TENTHS_BYTES ≤ LINE_BYTES }
        ensures added { self.new ≡ self.old ++ 44 ∷ with_point tenths }
        ensures short { length self.new ≤ length self.old + 1 + TENTHS_BYTES }
    {
        self.push(b',');
        self.tenths(tenths);
    }

    /// Adds a comma, and a number of tenths where there is one.
    pub fn tenths_field_if_any(&mut self, tenths: Option<i32>)
        requires { length self.old + 1 + TENTHS_BYTES ≤ LINE_BYTES }
        ensures added { self.new ≡ self.old ++ 44 ∷ if_any with_point tenths }
        ensures short { length self.new ≤ length self.old + 1 + TENTHS_BYTES }
    {
        match tenths {
            Some(tenths) => self.tenths_field(tenths),
            None => self.text(","),
        }
    }

    /// Adds a comma, and 1 where something holds, else 0.
    pub fn mark_field(&mut self, holds: bool)
        requires { length self.old + 2 ≤ LINE_BYTES }
        ensures added { self.new ≡ self.old ++ 44 ∷ mark holds }
        ensures longer { length self.new ≡ length self.old + 2 }
    {
        self.text_field(if holds { "1" } else { "0" });
    }

    /// Adds a comma and the number of an address, in six hexadecimal digits 0-9A-F.
    pub fn address_field(&mut self, value: u32)
        requires fits { value < 2 ^ 24 }
        requires room { length self.old + 1 + ADDRESS_BYTES ≤ LINE_BYTES }
        ensures added { self.new ≡ self.old ++ 44 ∷ hex 6 value }
        ensures short { length self.new ≤ length self.old + 1 + ADDRESS_BYTES }
    {
        self.push(b',');
        self.address(value);
    }

    /// Adds a comma and a number in `digits` hexadecimal digits, as `hex` does.
    pub fn hex_field(&mut self, value: u64, digits: u8)
        requires few { digits ≤ 16 }
        requires fits { value < 16 ^ digits }
        requires room { length self.old + 1 + digits ≤ LINE_BYTES }
        ensures added { self.new ≡ self.old ++ 44 ∷ hex digits value }
        ensures longer { length self.new ≡ length self.old + 1 + digits }
    {
        self.push(b',');
        self.hex(value, digits);
    }

    /// Adds a comma and a text.
    pub fn text_field(&mut self, piece: &str)
        requires { length self.old + 1 + length piece.now ≤ LINE_BYTES }
        ensures added { self.new ≡ self.old ++ 44 ∷ piece.now }
        ensures longer { length self.new ≡ length self.old + 1 + length piece.now }
    {
        self.push(b',');
        self.text(piece);
    }

    /// What was added, in order.
    pub fn bytes(&self) -> &[u8]
        ensures bytes { result.now ≡ self.now }
        ensures short { length result.now ≤ LINE_BYTES }
        ensures most { LINE_BYTES ≡ 512 }
    {
        &self.bytes[..self.len]
    }

    // Adds a number as a plain decimal. Most numbers have one digit.
    fn number(&mut self, value: u64)
        requires few { value < 2 ^ 32 }
        requires room { length self.old + length (decimal value) ≤ LINE_BYTES }
        ensures added { self.new ≡ self.old ++ decimal value }
        ensures longer { length self.new ≡ length self.old + length (decimal value) }
    {
        if value < 10 {
            self.push(b'0' + value as u8);
            return;
        }
        let count = count_digits(value);
        let end = self.len + count;
        let _ = write_digits(value, &mut self.bytes, end);
        self.len += count;
    }

    fn push(&mut self, byte: u8)
        requires { length self.old < LINE_BYTES }
        ensures { self.new ≡ self.old ++ byte ∷ [] }
    {
        self.bytes[self.len] = byte;
        self.len += 1;
    }

    fn add(&mut self, piece: &[u8])
        requires { length self.old + length piece.now ≤ LINE_BYTES }
        ensures added { self.new ≡ self.old ++ piece.now }
        ensures longer { length self.new ≡ length self.old + length piece.now }
    {
        let end = self.len + piece.len();
        self.bytes[self.len..end].copy_from_slice(piece);
        self.len = end;
    }
}
