// A journal is filled.
ghost use Rattle.std.specs.Prelude.{◌≡◌, List, []};
ghost use Rattle.acas_base.specs.declared.entry.Entry.{Entry};
ghost use Rattle.air_journal.specs.Airs.{air_of};
ghost use Rattle.air_rules.specs.Air.{Air, IsSound};
ghost use Rattle.air_rules.specs.Journal.{Begins, commits};
ghost use Rattle.air_rules.specs.Rules.{IsComplete, IsLegal};
ghost use Rattle.air_rules.specs.Serial.{IsSerial};
ghost use Rattle.craft_view.specs.Looking.{AreReady};
ghost use Rattle.resume.specs.Filling.{Fills, IsFilled};
ghost use Rattle.resume.specs.Steps.{IsAtRest};

use crate::looks::put_crafts;
use crate::rounds::round;
use crate::steps::{slowest, step};
use acas_base::Encounter;
use air_journal::AirState;
use craft_view::Surveillance;
use flight::Places;

// Goes on until all have equally many commits, nobody owes and nothing is due.
fn catch_up(state: &mut AirState, enc: &Encounter, surveillance: &mut Surveillance)
    requires same { state.old.encounter ≡ enc.now }
    requires ready { AreReady enc.now (commits state.old.journal) surveillance.old.crafts }
    ensures encounter { state.new.encounter ≡ enc.now }
    ensures fills { Fills (air_of enc.now) state.old.journal state.new.journal }
    ensures ready { AreReady enc.now (commits state.new.journal) surveillance.new.crafts }
    ensures rest { IsAtRest (air_of enc.now) state.new.journal }
{
    state.legal_law();
    loop {
        if !step(state, enc, surveillance) {
            return;
        }
    }
}

// Goes on round by round to the end.
fn finish(state: &mut AirState, enc: &Encounter, surveillance: &mut Surveillance)
    requires same { state.old.encounter ≡ enc.now }
    requires ready { AreReady enc.now (commits state.old.journal) surveillance.old.crafts }
    requires rest { IsAtRest (air_of enc.now) state.old.journal }
    ensures encounter { state.new.encounter ≡ enc.now }
    ensures filled { IsFilled (air_of enc.now) state.old.journal state.new.journal }
{
    state.legal_law();
    let Some(own) = slowest(state, enc) else {
        return;
    };
    let mut places = Places::new(enc, 1);
    for done in state.commits(own)..enc.cycles() {
        round(state, enc, surveillance, &mut places, done);
    }
}

/// Goes on with a journal to its end. The next entry is that of the serial order, where it is allowed; else the first
/// owed message, by sender and receiver; else the first due copy, by receiver, position and copy. The entries that were
/// there stay. In the end the journal is legal and complete. `enc` has to be the encounter of the state.
pub fn fill(state: &mut AirState, enc: &Encounter)
    requires { state.old.encounter ≡ enc.now }
    ensures encounter { state.new.encounter ≡ enc.now }
    ensures filled { IsFilled (air_of enc.now) state.old.journal state.new.journal }
    ensures legal { IsLegal (air_of enc.now) state.new.journal }
    ensures complete { IsComplete (air_of enc.now) state.new.journal }
    ensures begins { Begins state.old.journal state.new.journal }
{
    let mut surveillance = Surveillance::none();
    put_crafts(state, enc, &mut surveillance);
    catch_up(state, enc, &mut surveillance);
    finish(state, enc, &mut surveillance);
    state.legal_law();
}

/// A law: filling a legal journal gives a legal and complete journal that begins with it. One journal has at most one
/// filling. The filling of the empty journal is the serial journal, and so is that of each beginning of the serial
/// journal.
pub fn filled_law()
    ensures legal { (air : Air) (first : List Entry) (journal : List Entry) → IsSound air → IsLegal air first → IsFilled air first journal → IsLegal air journal }
    ensures complete { (air : Air) (first : List Entry) (journal : List Entry) → IsSound air → IsLegal air first → IsFilled air first journal → IsComplete air journal }
    ensures begins { (air : Air) (first : List Entry) (journal : List Entry) → IsFilled air first journal → Begins first journal }
    ensures only { (air : Air) (begun one other : List Entry) → IsFilled air begun one → IsFilled air begun other → one ≡ other }
    ensures serial { (air : Air) (journal : List Entry) → IsSound air → IsFilled air [] journal → IsSerial air journal }
    ensures begun { (air : Air) (first whole journal : List Entry) → IsSound air → IsSerial air whole → Begins first whole → IsFilled air first journal → journal ≡ whole }
{}
