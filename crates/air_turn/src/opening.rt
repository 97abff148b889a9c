// The shared journal is opened.
ghost use Rattle.std.specs.Prelude.{◌≡◌, [], All, IfOk};
ghost use Rattle.acas_base.specs.Encounter.{IsEncounter};
ghost use Rattle.air_turn.specs.Rule.{active_of, at_start};
ghost use Rattle.air_journal.specs.States.{IsJournalOf};
ghost use Rattle.air_turn.specs.Seats.{AreAllSeats, first_seats};
ghost use Rattle.craft_view.specs.Kept.{IsActive};

use crate::air::Air;
use crate::seat::Seat;
use crate::steps::SplitFirst;
use crate::view::{LENGTH, TurnSeat, TurnTable, WORDS};
use acas_base::Encounter;
use air_journal::AirState;
use craft_view::is_active;
use std::alloc::{AllocError, Global};
use std::snapshot::Snapshot;

// The active aircraft, in order of index.
fn actives(alloc: Global, enc: &Encounter) -> Result<Vec<u8>, AllocError>
    ensures value { IfOk result (λ owns. owns.items ≡ active_of enc.now) }
    ensures active { IfOk result (λ owns. All (IsActive enc.now) owns.items) }
{
    enc.valid_law();
    let mut owns = Vec::with_capacity(alloc, enc.crafts().len())?;
    for own in 0..enc.crafts().len() as u8 {
        if is_active(enc, own) {
            owns.push_reserved(own);
        }
    }
    Ok(owns)
}

impl Air {
    /// Shares a journal: each active aircraft has a seat, in order of index.
    pub fn open(alloc: Global, state: AirState) -> Result<(Air, Vec<Seat>), AllocError>
        ensures air { IfOk result (λ opened. opened.0.encounter ≡ state.encounter) }
        ensures seats { IfOk result (λ opened. opened.1.items ≡ first_seats opened.0.table state.encounter state.journal (active_of state.encounter)) }
        ensures all { IfOk result (λ opened. AreAllSeats opened.0 opened.1.items) }
    {
        state.legal_law();
        let owns = actives(alloc, state.enc())?;
        let count = u64::from(state.count());
        let about = Snapshot::of(&state);
        let mut slots = Vec::with_capacity(alloc, 1)?;
        slots.push_reserved(Some(state));
        let mut words = [0; WORDS];
        words[LENGTH] = count;
        let Ok((table, place)) = TurnTable::new(alloc, &words, slots, &about) else {
            return Err(AllocError);
        };
        let air = Air { table };
        let seats = air.seat_all(alloc, place, &about, &owns)?;
        Ok((air, seats))
    }

    // Splits a seat for each of the aircraft off the first place. What is left of the place has no claim.
    fn seat_all(
        &self,
        alloc: Global,
        mut place: TurnSeat,
        about: &Snapshot<AirState>,
        owns: &[u8],
    ) -> Result<Vec<Seat>, AllocError>
        requires table { place.table_id ≡ self.now.table }
        requires place { place.me ≡ (at_start about.now.value, []) }
        requires owns { owns.now ≡ active_of about.now.value.encounter }
        requires active { All (IsActive about.now.value.encounter) owns.now }
        requires state { IsJournalOf about.now.value.encounter about.now.value.journal }
        ensures { IfOk result (λ seats. seats.items ≡ first_seats self.now.table about.now.value.encounter about.now.value.journal owns.now) }
    {
        let mut seats = Vec::with_capacity(alloc, owns.len())?;
        for i in 0..owns.len() {
            let next = self.table.shared.split_seat::<SplitFirst>(&mut place);
            seats.push_reserved(Seat::at(owns[i], next));
        }
        Ok(seats)
    }
}
