// The looks that the aircraft of a journal have made.
ghost use Rattle.std.specs.Prelude.{◌≡◌, None, replicate};
ghost use Rattle.acas_base.specs.declared.TheConstants.{CRAFTS};
ghost use Rattle.air_rules.specs.Journal.{commits};
ghost use Rattle.craft_view.specs.Looking.{AreReady, IsReady};

use acas_base::Encounter;
use air_journal::AirState;
use craft_view::{Craft, Surveillance, is_active};

// The aircraft at an index, where it is active, after as many looks as it has commits.
#[tactic(auto, unfolding(craft_view::specs::Looking::IsReady))]
fn craft_at(state: &AirState, enc: &Encounter, own: u8) -> Option<Craft>
    requires { state.now.encounter ≡ enc.now }
    ensures { IsReady enc.now own (commits state.now.journal own) result }
{
    state.legal_law();
    if !is_active(enc, own) {
        return None;
    }
    let mut craft = Craft::new(enc, own);
    let looks = state.commits(own);
    for _look in 0..looks {
        let _ = craft.look(enc);
    }
    Some(craft)
}

/// Puts the aircraft of a journal where none is yet: each active one has looked as often as it has committed.
pub(crate) fn put_crafts(state: &AirState, enc: &Encounter, surveillance: &mut Surveillance)
    requires same { state.now.encounter ≡ enc.now }
    requires none { surveillance.old.crafts ≡ replicate CRAFTS None }
    ensures { AreReady enc.now (commits state.now.journal) surveillance.new.crafts }
{
    state.legal_law();
    for own in 0..enc.crafts().len() as u8 {
        surveillance.crafts[usize::from(own)] = craft_at(state, enc, own);
    }
}
