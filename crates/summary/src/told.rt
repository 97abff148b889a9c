// The message in force.
ghost use Rattle.std.specs.Prelude.{◌≡◌, ◌<◌};
ghost use Rattle.acas_base.specs.declared.TheConstants.{CRAFTS};
ghost use Rattle.air_journal.specs.Airs.{air_of};
ghost use Rattle.summary.specs.Stretches.{told_of};

use acas_base::Vrc;
use journal_reader::Reader;

/// A message whose complement is in force: the positions of its send and of its take.
#[derive(Clone, Copy)]
pub(crate) struct Told {
    pub sent_at: u32,
    pub taken_at: u32,
}

/// The message whose complement is in force on an aircraft from another one.
#[tactic(auto, unfolding(crate::specs::Stretches::told_of))]
pub(crate) fn told_of(reader: &Reader<'_>, own: u8, other: u8) -> Option<Told>
    requires own { own < CRAFTS }
    requires other { other < CRAFTS }
    ensures { result ≡ told_of (air_of reader.now.encounter) reader.now.read own other }
{
    if reader.complement(own, other) == Vrc::Nil {
        return None;
    }
    let Some(taken) = reader.last_take(own, other) else {
        return None;
    };
    Some(Told {
        sent_at: taken.send,
        taken_at: taken.at,
    })
}
