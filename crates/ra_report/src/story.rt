// What is kept of an aircraft's own commits.
ghost use Rattle.std.specs.Prelude.{◌≡◌, ◌≤◌, ◌∷◌, List, length};
ghost use Rattle.acas_base.specs.declared.TheConstants.{CRAFTS};
ghost use Rattle.acas_base.specs.declared.advisory.Cells.{Cells};
ghost use Rattle.ra_report.specs.Blocks.{block_for, ended, is_increase, is_positive, threats};
ghost use Rattle.ra_report.specs.Stories.{AreAfter, IsAmong, IsStory, as_threats, had, held_after, no_senses, older, senses_after, told};

use acas_base::{Address, CRAFTS, Cell, Cells, Encounter, Sense, Strength};
use ra_block::RaBlock;

/// The aircraft against which a commit advises.
#[derive(Clone, Copy)]
pub(crate) enum Threats {
    Nobody,
    One(u8),
    Many,
}

/// Which senses an advisory has had so far.
#[derive(Clone, Copy)]
pub(crate) struct Senses {
    pub up: bool,
    pub down: bool,
}

/// The block of an aircraft's last advisory, and how many commits have come since.
#[derive(Clone, Copy)]
pub(crate) struct Held {
    pub block: RaBlock,
    pub since: u16,
}

/// The senses of an aircraft's advisories, by the index of the threat, and the block that it holds.
#[derive(Clone, Copy)]
pub(crate) struct Story {
    pub senses: [Senses; CRAFTS],
    pub held: Option<Held>,
}

// For how many commits a block is held.
const HOLD: u16 = 18;

impl Senses {
    ghost use Rattle.acas_base.specs.declared.advisory.Sense.{Sense};

    /// There is no advisory.
    pub fn none() -> Senses
        ensures { result ≡ no_senses }
    {
        Senses {
            up: false,
            down: false,
        }
    }

    fn had(self, sense: Sense) -> bool
        ensures { result ≡ had self sense }
    {
        match sense {
            Sense::Up => self.up,
            Sense::Down => self.down,
        }
    }

    // The senses one cycle later.
    fn after(self, cell: Cell) -> Senses
        ensures { result ≡ senses_after self cell }
    {
        let Cell::Ra(intent) = cell else {
            return Senses::none();
        };
        let before = if intent.age == 1 {
            Senses::none()
        } else {
            self
        };
        Senses {
            up: intent.sense == Sense::Up || before.up,
            down: intent.sense == Sense::Down || before.down,
        }
    }
}

impl Held {
    // What is held one commit later; none where the hold is over.
    fn older(self) -> Option<Held>
        ensures { result ≡ older self }
    {
        if self.since < HOLD {
            Some(Held {
                block: self.block,
                since: self.since + 1,
            })
        } else {
            None
        }
    }

    /// The block as it is reported: as ended, where its advisory is over.
    pub fn told(self) -> RaBlock
        ensures { result ≡ told self }
    {
        if self.since == 0 {
            self.block
        } else {
            ended(self.block)
        }
    }
}

fn ended(block: RaBlock) -> RaBlock
    ensures { result ≡ ended block }
{
    RaBlock {
        corrective: block.corrective,
        downward: block.downward,
        increased: block.increased,
        reversal: block.reversal,
        crossing: block.crossing,
        positive: block.positive,
        below: block.below,
        above: block.above,
        ended: true,
        threat: block.threat,
    }
}

impl Threats {
    ghost use Rattle.ra_report.specs.Stories.{with_threat};

    // The threats with one aircraft more.
    fn with(self, other: u8) -> Threats
        ensures { result ≡ with_threat self other }
    {
        match self {
            Threats::Nobody => Threats::One(other),
            Threats::One(_) | Threats::Many => Threats::Many,
        }
    }

    /// The threats of a commit, among the first `count` aircraft.
    pub fn of(cells: &Cells, count: u8) -> Threats
        requires count { count ≤ CRAFTS }
        requires size { length cells.now.list ≡ CRAFTS }
        ensures { result ≡ as_threats (threats count cells.now) }
    {
        let mut found = Threats::Nobody;
        for other in 0..count {
            if cells.list[usize::from(other)].has_advisory() {
                found = found.with(other);
            }
        }
        found
    }
}

fn is_increase(strength: Strength) -> bool
    ensures { result ≡ is_increase strength }
{
    match strength {
        Strength::Limit2000
        | Strength::Limit1000
        | Strength::Limit500
        | Strength::Level
        | Strength::Positive => false,
        Strength::Increase => true,
    }
}

fn is_positive(strength: Strength) -> bool
    ensures { result ≡ is_positive strength }
{
    match strength {
        Strength::Limit2000 | Strength::Limit1000 | Strength::Limit500 | Strength::Level => false,
        Strength::Positive | Strength::Increase => true,
    }
}

// The block of an advisory against this threat.
fn block_for(threat: Address, senses: Senses, cell: Cell) -> Option<RaBlock>
    ensures { result ≡ block_for threat (had senses) cell }
{
    let Cell::Ra(intent) = cell else {
        return None;
    };
    Some(RaBlock {
        corrective: intent.corrective,
        downward: intent.sense == Sense::Down,
        increased: is_increase(intent.strength),
        reversal: senses.had(intent.sense.other()),
        crossing: intent.crossing,
        positive: is_positive(intent.strength),
        below: false,
        above: false,
        ended: false,
        threat,
    })
}

// The senses of the advisories after a commit.
fn senses_after(senses: &[Senses; CRAFTS], cells: &Cells) -> [Senses; CRAFTS]
    requires { length cells.now.list ≡ CRAFTS }
    ensures { AreAfter senses.now cells.now result }
{
    let mut after = *senses;
    for other in 0..CRAFTS {
        after[other] = senses[other].after(cells.list[other]);
    }
    after
}

// What is held after a commit with these threats and senses.
fn held_after(
    encounter: &Encounter,
    held: Option<Held>,
    cells: &Cells,
    senses: &[Senses; CRAFTS],
    threats: Threats,
) -> Option<Held>
    requires size { length cells.now.list ≡ CRAFTS }
    requires threat { IsAmong (length encounter.now.crafts) threats }
    ensures { result ≡ held_after encounter.now held cells.now senses.now threats }
{
    match threats {
        Threats::Nobody => held?.older(),
        Threats::One(other) => {
            let other = usize::from(other);
            let threat = encounter.crafts()[other].address;
            let block = block_for(threat, senses[other], cells.list[other])?;
            Some(Held { block, since: 0 })
        }
        Threats::Many => None,
    }
}

impl Story {
    /// The story of an aircraft with one commit more.
    pub fn after(&self, encounter: &Encounter, cells: &Cells) -> Story
        requires few { length encounter.now.crafts ≤ CRAFTS }
        requires size { length cells.now.list ≡ CRAFTS }
        ensures { (commits : List Cells) → IsStory encounter.now commits self.now → IsStory encounter.now (cells.now ∷ commits) result }
    {
        let count = encounter.crafts().len() as u8;
        let senses = senses_after(&self.senses, cells);
        let threats = Threats::of(cells, count);
        let held = held_after(encounter, self.held, cells, &senses, threats);
        Story { senses, held }
    }
}
