// Expected values: by hand from "Explained" in docs/FORMATS.md, before the program ran. No word of the program tells
// them: `explain` reads these texts as encounters.
use acas_text::Line;
use std::alloc::{AllocError, Global};
use std::test::Fail;
use track_text::{ReadError, explained, read};

// A text that doesn't begin as tracks do, and the line that tells its fault.
const ROWS: &[(&[u8], &[u8])] = &[
    (
        b"",
        b"line 1: there is no record; the first one has to be \"tracks,1\" or \"tracks,2\"\n",
    ),
    (
        b"\n\r\ntracks,3\n",
        b"line 3: the first record has to be \"tracks,1\" or \"tracks,2\", and is \"tracks,3\"\n",
    ),
];

// The line that tells the fault of a text; none where it is accepted.
fn told(alloc: Global, text: &[u8]) -> Result<Option<Line>, AllocError> {
    if text.len() > 1_000 {
        return Ok(None);
    }
    match read(alloc, text) {
        Ok(_) => Ok(None),
        Err(ReadError::OutOfMemory) => Err(AllocError),
        Err(ReadError::Refused(refusal)) => Ok(Some(explained(text, refusal))),
    }
}

fn is_told(alloc: Global, text: &[u8], expected: &[u8]) -> Result<bool, AllocError> {
    match told(alloc, text)? {
        Some(line) => Ok(line.bytes() == expected),
        None => Ok(false),
    }
}

// The number of the first text that is told otherwise.
fn first_other(alloc: Global, texts: &[(&[u8], &[u8])]) -> Result<Option<usize>, AllocError> {
    for place in 0..texts.len() {
        let (text, expected) = texts[place];
        if !is_told(alloc, text, expected)? {
            return Ok(Some(place));
        }
    }
    Ok(None)
}

#[test]
fn texts_without_a_header_are_told(rt: HostRuntime) -> Result<(), Fail> {
    assert_eq!(rt; first_other(rt.alloc(), ROWS)?, None);
    Ok(())
}
