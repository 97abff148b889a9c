// The aircraft of an encounter look at each other.
ghost use Rattle.std.specs.Prelude.{◌≡◌, ◌<◌, ◌≤◌, None, IsSome, option_copied, replicate, slice_index_or};
ghost use Rattle.acas_base.specs.declared.TheConstants.{CRAFTS};
ghost use Rattle.craft_view.specs.Looking.{AreReady, IsReady, LookedOn, MayLook};
ghost use Rattle.craft_view.specs.Views.{SayNothingFrom, picture_after, picture_of};
ghost use Rattle.flight.specs.Inside.{IsInside};

use crate::craft::Craft;
use crate::own::is_active;
use crate::pair::no_picture;
use acas_base::{CRAFTS, Cells, Encounter, Picture};
use flight::Places;
use std::array::from_fn;

/// The active aircraft of an encounter, each at its index, and the picture of the one that looked last.
#[derive(Drop)]
pub struct Surveillance {
    pub crafts: [Option<Craft>; CRAFTS],
    pub picture: Picture,
    // How many of its views, from the first one on, looks have put.
    seen: usize,
    ghost rest: { SayNothingFrom seen picture.views },
}

impl Surveillance {
    /// The active aircraft of an encounter before their first look. The encounter has to be inside the box, as
    /// `flight::inside` tells.
    pub fn new(encounter: &Encounter) -> Surveillance
        requires { IsInside encounter.now }
        ensures { AreReady encounter.now (λ _. 0) result.crafts }
    {
        Surveillance {
            crafts: from_fn(|own| { craft_at(encounter, own) }),
            picture: no_picture(),
            seen: 0,
        }
    }

    /// No aircraft. Those that have looked already are put where they stay, so that the places of all sixteen aren't
    /// moved.
    pub fn none() -> Surveillance
        ensures { result.crafts ≡ replicate CRAFTS None }
    {
        Surveillance {
            crafts: [
                None, None, None, None, None, None, None, None, None, None, None, None, None, None,
                None, None,
            ],
            picture: no_picture(),
            seen: 0,
        }
    }

    /// The aircraft at an index, which is active, looks in the next cycle. The places are those of that cycle.
    pub fn look(&mut self, own: u8, places: &Places)
        requires own { own < CRAFTS }
        requires there { IsSome (slice_index_or self.old.crafts own None) }
        requires left { places.now.cycle ≤ places.now.encounter.cycles }
        requires ready { MayLook places.now own (slice_index_or self.old.crafts own None) }
        ensures { LookedOn places.now own self.old.crafts self.new.crafts self.new.picture }
    {
        self.look_after(own, places, None);
    }

    /// The aircraft at an index looks, as in [`Surveillance::look`], after the cells of its last commit. The picture
    /// only serves its next commit: a view has no separations where there is neither a threat nor an advisory of these
    /// cells. Without cells it has them.
    pub fn look_after(&mut self, own: u8, places: &Places, before: Option<&Cells>)
        requires own { own < CRAFTS }
        requires there { IsSome (slice_index_or self.old.crafts own None) }
        requires left { places.now.cycle ≤ places.now.encounter.cycles }
        requires ready { MayLook places.now own (slice_index_or self.old.crafts own None) }
        ensures looked { LookedOn places.now own self.old.crafts self.new.crafts (picture_of places.now.encounter own places.now.cycle) }
        ensures picture { self.new.picture ≡ picture_after (option_copied before.entry) places.now.encounter own places.now.cycle }
    {
        let count = places.encounter().crafts().len();
        clear_past(&mut self.picture, self.seen, count);
        self.seen = count;
        match &mut self.crafts[usize::from(own)] {
            Some(craft) => craft.look_into(places, before, &mut self.picture),
            None => unreachable!(),
        }
    }
}

// Clears a picture with views of more aircraft than there are. It has none where all looks are in one encounter.
fn clear_past(picture: &mut Picture, seen: usize, count: usize)
    requires { SayNothingFrom seen picture.old.views }
    ensures { SayNothingFrom count picture.new.views }
{
    if count < seen {
        *picture = no_picture();
    }
}

// The aircraft at an index, where it is active, before its first look.
#[tactic(auto, unfolding(crate::specs::Looking::IsReady))]
fn craft_at(encounter: &Encounter, own: usize) -> Option<Craft>
    requires own { own < CRAFTS }
    requires inside { IsInside encounter.now }
    ensures { IsReady encounter.now own 0 result }
{
    let own = own as u8;
    if !is_active(encounter, own) {
        return None;
    }
    Some(Craft::new(encounter, own))
}
