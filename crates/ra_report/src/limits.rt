// Which complements are in force on an aircraft.
ghost use Rattle.std.specs.Prelude.{◌≡◌, ◌<◌, ◌≤◌, length};
ghost use Rattle.acas_base.specs.declared.TheConstants.{CRAFTS};
ghost use Rattle.ra_report.specs.Blocks.{is_limited, is_not_above, is_not_below, limited};

use acas_base::Sense;
use journal_reader::Reader;
use ra_block::RaBlock;

// The kinds of complements in force: "do not pass below" and "do not pass above".
#[derive(Clone, Copy)]
struct Limits {
    below: bool,
    above: bool,
}

// The complements in force on an aircraft from the first `count` aircraft, by the journal that was read.
fn limits_on(reader: &Reader<'_>, own: u8, count: u8) -> Limits
    requires own { own < CRAFTS }
    requires few { count ≤ CRAFTS }
    requires count { count ≡ length reader.now.encounter.crafts }
    ensures below { result.below ≡ is_limited is_not_below reader.now.encounter reader.now.read own }
    ensures above { result.above ≡ is_limited is_not_above reader.now.encounter reader.now.read own }
{
    let mut below = false;
    let mut above = false;
    for other in 0..count {
        let vrc = reader.complement(own, other);
        below = below || vrc.forbids(Sense::Down);
        above = above || vrc.forbids(Sense::Up);
    }
    Limits { below, above }
}

/// A block with the complements in force on its aircraft, by the journal that was read. There are `count` aircraft.
pub(crate) fn with_limits(block: RaBlock, reader: &Reader<'_>, own: u8, count: u8) -> RaBlock
    requires own { own < CRAFTS }
    requires few { count ≤ CRAFTS }
    requires count { count ≡ length reader.now.encounter.crafts }
    ensures { result ≡ limited (is_limited is_not_below reader.now.encounter reader.now.read own) (is_limited is_not_above reader.now.encounter reader.now.read own) block }
{
    let limits = limits_on(reader, own, count);
    RaBlock {
        corrective: block.corrective,
        downward: block.downward,
        increased: block.increased,
        reversal: block.reversal,
        crossing: block.crossing,
        positive: block.positive,
        below: limits.below,
        above: limits.above,
        ended: block.ended,
        threat: block.threat,
    }
}
