// Expected values: by hand from the tables of "Messages" in docs/RULES.md.
use acas_base::{Address, ResMsg, Vrc};
use res_message::{decode, encode, flip};
use std::test::Fail;

const ALL: [Vrc; 3] = [Vrc::Nil, Vrc::NotBelow, Vrc::NotAbove];

fn message(many: bool, cancel: Vrc, vrc: Vrc) -> Result<ResMsg, Fail> {
    Ok(ResMsg {
        many,
        cancel,
        vrc,
        sender: Address::new(0x40_0A01).ok_or("no address")?,
    })
}

// What a message cancels and sets, and its word.
type Word = (Vrc, Vrc, u64);

const WORDS: [Word; 4] = [
    (Vrc::Nil, Vrc::NotAbove, 0x30_0800_0740_0A01),
    (Vrc::Nil, Vrc::NotBelow, 0x30_0400_0E40_0A01),
    (Vrc::NotAbove, Vrc::NotBelow, 0x30_2400_0340_0A01),
    (Vrc::NotAbove, Vrc::Nil, 0x30_2000_0D40_0A01),
];

fn has_word(row: Word) -> Result<bool, Fail> {
    let (cancel, vrc, word) = row;
    let message = message(false, cancel, vrc)?;
    Ok(encode(&message) == word && decode(word) == Some(message))
}

// The place of the first message with another word.
fn first_other(rows: &[Word]) -> Result<Option<usize>, Fail> {
    for place in 0..rows.len() {
        if !has_word(rows[place])? {
            return Ok(Some(place));
        }
    }
    Ok(None)
}

#[test]
fn writes_words(rt: HostRuntime) -> Result<(), Fail> {
    assert_eq!(rt; first_other(&WORDS)?, None);
    Ok(())
}

// How many masks of one to three bits leave a word unread.
fn unread(word: u64) -> u16 {
    let mut count: u16 = 0;
    for mask in 1..=255u8 {
        if mask.count_ones() <= 3 && decode(flip(word, mask)).is_none() {
            count = count.saturating_add(1);
        }
    }
    count
}

// The first message that some of these 92 masks leave readable.
fn first_read() -> Result<Option<(bool, Vrc, Vrc)>, Fail> {
    for many in [false, true] {
        for cancel in ALL {
            for vrc in ALL {
                if unread(encode(&message(many, cancel, vrc)?)) != 92 {
                    return Ok(Some((many, cancel, vrc)));
                }
            }
        }
    }
    Ok(None)
}

#[test]
fn flips_and_refuses(rt: HostRuntime) -> Result<(), Fail> {
    assert_eq!(rt; flip(0x30_0800_0740_0A01, 0x07), 0x30_0800_0040_0A01);
    assert_eq!(rt; first_read()?, None);
    Ok(())
}
