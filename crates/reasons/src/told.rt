// What an aircraft was told by another one.
ghost use Rattle.std.specs.Prelude.{◌≡◌, ◌<◌};
ghost use Rattle.acas_base.specs.declared.TheConstants.{CRAFTS};
ghost use Rattle.air_journal.specs.Airs.{air_of};
ghost use Rattle.air_rules.specs.Takes.{complement_from};
ghost use Rattle.reasons.specs.Reasons.{told_of};

use acas_base::Vrc;
use journal_reader::Reader;

// The complement in force from another aircraft, and the message that set it.
#[derive(Clone, Copy)]
pub struct Told {
    // The complement, which isn't Nil.
    pub complement: Vrc,
    // The position of the message's send.
    pub sent_at: u32,
    // The position of its take.
    pub taken_at: u32,
    // How many commits own aircraft has made since the take.
    pub commits_since: u16,
}

/// What is in force on an aircraft from another one, whose complement is known.
#[tactic(auto, unfolding(crate::specs::Reasons::told_of))]
pub(crate) fn told_of(reader: &Reader<'_>, own: u8, other: u8, complement: Vrc) -> Option<Told>
    requires own { own < CRAFTS }
    requires other { other < CRAFTS }
    requires complement { complement ≡ complement_from (air_of reader.now.encounter) reader.now.read own other }
    ensures { result ≡ told_of (air_of reader.now.encounter) reader.now.read own other }
{
    if complement == Vrc::Nil {
        return None;
    }
    let Some(taken) = reader.last_take(own, other) else {
        return None;
    };
    Some(Told {
        complement,
        sent_at: taken.send,
        taken_at: taken.at,
        commits_since: reader.commits(own).saturating_sub(taken.commits),
    })
}
