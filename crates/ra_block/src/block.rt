// Blocks and their words. The layout is this project's own.
ghost use Rattle.std.specs.Prelude.{◌≡◌, ◌↔◌, ◌<◌, ◌+◌, ◌*◌, ◌^◌, None, Some};
ghost use Rattle.acas_base.specs.Ranges.{IsAddress};
ghost use Rattle.ra_block.specs.Words.{Word, IsBlockWord, bit_at, read_block, word_of};
ghost use Rattle.ra_block.specs.declared.block.RaBlock.{RaBlock};
ghost use Rattle.res_message.specs.Words.{bit_of};

use acas_base::Address;

/// An RA report block: an advisory against one threat, as an aircraft downlinks it after a commit.
#[derive(Clone, Copy, Debug, PartialEq, Eq)]
pub struct RaBlock {
    /// The vertical rate has to change.
    pub corrective: bool,
    /// Its sense is down.
    pub downward: bool,
    /// An increased rate is asked for.
    pub increased: bool,
    /// It had the other sense before.
    pub reversal: bool,
    /// It crosses the altitude of the threat.
    pub crossing: bool,
    /// It asks for a rate in its sense.
    pub positive: bool,
    /// "Do not pass below" is in force, from any aircraft.
    pub below: bool,
    /// "Do not pass above" is in force, from any aircraft.
    pub above: bool,
    /// The advisory is over.
    pub ended: bool,
    /// Who the threat is.
    pub threat: Address,
}

// The parts that all words have: 3 in the bits 33 to 36; one threat, in bit 41; and in the bits 61 and 62, that an
// address names the threat.
const ALWAYS: u64 = (3 << 52) + (1 << 47) + (1 << 26);

// The lowest bit of the threat's address.
const THREAT: u64 = 1 << 2;

fn bit(flag: bool) -> u64
    ensures value { result ≡ bit_of flag }
    ensures bound { result < 2 }
{
    u64::from(flag)
}

// Whether a word has this bit.
fn has(word: u64, bit: u64) -> bool
    requires { 0 < bit }
    ensures { result ≡ bit_at bit word }
{
    word / bit % 2 == 1
}

// The bits of the flags about the advisory itself.
fn advisory_bits(b: &RaBlock) -> u64
    ensures value { result ≡ bit_of b.now.corrective * 2 ^ 46 + bit_of b.now.downward * 2 ^ 45 + bit_of b.now.increased * 2 ^ 44 + bit_of b.now.reversal * 2 ^ 43 + bit_of b.now.crossing * 2 ^ 42 + bit_of b.now.positive * 2 ^ 41 }
    ensures bound { result < 2 ^ 47 }
{
    bit(b.corrective) * (1 << 46)
        + bit(b.downward) * (1 << 45)
        + bit(b.increased) * (1 << 44)
        + bit(b.reversal) * (1 << 43)
        + bit(b.crossing) * (1 << 42)
        + bit(b.positive) * (1 << 41)
}

/// The word of a block: 56 bits, which are numbered 33 to 88 from the highest one on.
pub fn encode(b: &RaBlock) -> u64
    ensures value { result ≡ word_of b.now }
    ensures word { Word b.now result }
{
    ALWAYS
        + advisory_bits(b)
        + bit(b.below) * (1 << 33)
        + bit(b.above) * (1 << 32)
        + bit(b.ended) * (1 << 29)
        + u64::from(b.threat.value()) * THREAT
}

/// The block of a word. None exactly where no block has that word.
pub fn decode(word: u64) -> Option<RaBlock>
    ensures value { result ≡ read_block word }
    ensures some { (b : RaBlock) → (result ≡ Some b) ↔ Word b word }
    ensures none { (result ≡ None) ↔ ¬ IsBlockWord word }
{
    read(word)
}

// What the fields of a word say, where that block has this word.
fn read(word: u64) -> Option<RaBlock>
    ensures { result ≡ read_block word }
{
    let threat = Address::new((word / THREAT % (1 << 24)) as u32)?;
    let block = RaBlock {
        corrective: has(word, 1 << 46),
        downward: has(word, 1 << 45),
        increased: has(word, 1 << 44),
        reversal: has(word, 1 << 43),
        crossing: has(word, 1 << 42),
        positive: has(word, 1 << 41),
        below: has(word, 1 << 33),
        above: has(word, 1 << 32),
        ended: has(word, 1 << 29),
        threat,
    };
    if encode(&block) == word {
        Some(block)
    } else {
        None
    }
}

/// A law: the word of a block is read as that block. So `decode(encode(&b))` is `b`.
pub fn read_law()
    ensures { (b : RaBlock) → IsAddress b.threat → read_block (word_of b) ≡ Some b }
{}
