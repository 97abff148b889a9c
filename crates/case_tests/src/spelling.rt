// Texts, as the lines of a case spell them.
use std::alloc::{AllocError, Global};
use std::io::{Error, ErrorKind, Result};

fn misspelled() -> Error {
    Error::from(ErrorKind::InvalidData)
}

// What was read of a line before a byte: nothing that is open, a backslash, `\x`, or `\x` and a digit.
#[derive(Clone, Copy)]
enum Before {
    Whole,
    Backslash,
    Hex,
    Digit(u8),
}

fn digit(letter: u8) -> Result<u8> {
    match letter {
        b'0'..=b'9' => Ok(letter - b'0'),
        b'a'..=b'f' => Ok(letter - b'a' + 10),
        _ => Err(misspelled()),
    }
}

// Adds the byte that a letter ends, where it ends one.
fn read(before: Before, letter: u8, bytes: &mut Vec<u8>) -> Result<Before> {
    let byte = match before {
        Before::Whole => match letter {
            b'\\' => return Ok(Before::Backslash),
            _ => letter,
        },
        Before::Backslash => match letter {
            b'x' => return Ok(Before::Hex),
            b'r' => b'\r',
            b'\\' => b'\\',
            _ => return Err(misspelled()),
        },
        Before::Hex => return Ok(Before::Digit(digit(letter)?)),
        Before::Digit(high) => (high << 4) | digit(letter)?,
    };
    push(bytes, byte)?;
    Ok(Before::Whole)
}

fn push(bytes: &mut Vec<u8>, byte: u8) -> Result<()> {
    bytes.push(byte).map_err(AllocError::from)?;
    Ok(())
}

// Adds the bytes of a line, with a line feed where it doesn't end with a backslash alone.
fn add_line(bytes: &mut Vec<u8>, line: &str) -> Result<()> {
    let mut before = Before::Whole;
    for letter in line.bytes() {
        before = read(before, letter, bytes)?;
    }
    match before {
        Before::Whole => push(bytes, b'\n'),
        Before::Backslash => Ok(()),
        Before::Hex | Before::Digit(_) => Err(misspelled()),
    }
}

/// Adds the bytes that the lines of a text spell. A line that is misspelled is an error of kind `InvalidData`.
pub fn add_text(bytes: &mut Vec<u8>, lines: &str) -> Result<()> {
    for line in lines.split('\n') {
        add_line(bytes, line)?;
    }
    Ok(())
}

/// The word that a line spells.
pub fn word(alloc: Global, line: &str) -> Result<String> {
    let mut bytes = Vec::new(alloc);
    add_line(&mut bytes, line)?;
    let _end = bytes.pop();
    String::from_utf8(bytes).map_err(|_| misspelled())
}
