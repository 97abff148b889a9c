// The serial run.
ghost use Rattle.std.specs.Prelude.{◌≡◌, []};
ghost use Rattle.air_journal.specs.Airs.{air_of};
ghost use Rattle.air_rules.specs.Rules.{IsComplete, IsLegal};
ghost use Rattle.air_rules.specs.Serial.{IsSerial};

use acas_base::Encounter;
use air_journal::AirState;
use resume::{fill, filled_law};

/// Plays the serial journal of the encounter of a state, whose journal has to be empty. It goes by rounds. Every active
/// aircraft commits, in order of index. Then all owed messages are sent, by sender and receiver. Then all due copies
/// are taken, by receiver, position and copy.
pub fn serial(state: &mut AirState, enc: &Encounter)
    requires same { state.old.encounter ≡ enc.now }
    requires empty { state.old.journal ≡ [] }
    ensures encounter { state.new.encounter ≡ enc.now }
    ensures serial { IsSerial (air_of enc.now) state.new.journal }
    ensures legal { IsLegal (air_of enc.now) state.new.journal }
    ensures complete { IsComplete (air_of enc.now) state.new.journal }
{
    filled_law();
    state.legal_law();
    air_journal::sound_law();
    fill(state, enc);
}
