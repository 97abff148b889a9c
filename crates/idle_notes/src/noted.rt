// What is noted of a line of the file.
ghost use Rattle.std.specs.Prelude.{◌≡◌, ◌<◌, ◌≤◌, IfSome, length};
ghost use Rattle.enc_file.specs.Values.{count_in, field};
ghost use Rattle.fault_text.specs.Lines.{fields_in};
ghost use Rattle.fault_text.specs.Told.{stated_kind};
ghost use Rattle.flight.specs.Inside.{IsInside};
ghost use Rattle.idle_notes.specs.Noted.{alone_note_of, climb_note, climb_note_of, fate_note, fate_note_of, for_named, ground_note_of, idle_note, leg_note, leg_note_of, low_note_of, miss_note, miss_note_of, named_in, plan_note, plan_note_of, record_note, silent_of, unsent_note};
ghost use Rattle.idle_notes.specs.Sources.{encounter_in, journal_in};
ghost use Rattle.idle_notes.specs.Told.{AreFirsts};

use crate::aircraft::{first_below, is_alone, is_low, is_ra_at};
use crate::fates::{are_ra, count_idle};
use crate::named::{Named, named_in};
use crate::note::Note;
use crate::rates::keeps_rates;
use crate::source::Source;
use acas_base::{Encounter, PAIRS, is_active_at, pair_of};
use enc_file::count_in;
use fault_text::{RecordKind, field};
use flight::own_altitude;

// ---- fields

// The aircraft whose address stands in a field of a record.
fn named_at(encounter: &Encounter, line: &[u8], place: usize) -> Option<Named>
    ensures value { result ≡ named_in encounter.now.crafts (field (fields_in line.now) place) }
    ensures there { IfSome result (λ named. named.index < length encounter.now.crafts) }
{
    encounter.valid_law();
    named_in(encounter.crafts(), field(line, place))
}

// The cycle or the number in a field of a record.
fn count_at(line: &[u8], place: usize) -> Option<u16>
    ensures value { result ≡ count_in 1 600 (field (fields_in line.now) place) }
    ensures range { IfSome result (λ n. (1 ≤ n) × (n ≤ 600)) }
{
    count_in(field(line, place), 1, 600)
}

// ---- records

fn leg_note_of(encounter: &Encounter, craft: Named, from: u16) -> Option<Note>
    requires craft { craft.index < length encounter.now.crafts }
    requires first { 1 ≤ from }
    ensures { result ≡ leg_note_of encounter.now craft from }
{
    encounter.valid_law();
    let last = encounter.cycles();
    if last <= from {
        return Some(Note::LateLeg {
            craft: craft.address,
            last,
        });
    }
    if keeps_rates(encounter, craft.index, from) {
        return Some(Note::SameRates {
            craft: craft.address,
        });
    }
    None
}

fn leg_note(encounter: &Encounter, line: &[u8]) -> Option<Note>
    ensures { result ≡ leg_note encounter.now (fields_in line.now) }
{
    let craft = named_at(encounter, line, 1)?;
    let from = count_at(line, 2)?;
    leg_note_of(encounter, craft, from)
}

fn miss_note_of(encounter: &Encounter, own: Named, from: u16) -> Option<Note>
    ensures { result ≡ miss_note_of encounter.now own from }
{
    if !is_active_at(encounter.crafts(), own.index) {
        return Some(Note::PassiveMiss { own: own.address });
    }
    let last = encounter.cycles();
    if last < from {
        return Some(Note::LateMiss { last });
    }
    None
}

fn miss_note(encounter: &Encounter, line: &[u8]) -> Option<Note>
    ensures { result ≡ miss_note encounter.now (fields_in line.now) }
{
    let own = named_at(encounter, line, 1)?;
    let from = count_at(line, 3)?;
    miss_note_of(encounter, own, from)
}

fn climb_note_of(encounter: &Encounter, craft: Named) -> Option<Note>
    ensures { result ≡ climb_note_of encounter.now craft }
{
    if is_ra_at(encounter.crafts(), craft.index) {
        return None;
    }
    Some(Note::IdleClimb {
        craft: craft.address,
    })
}

fn climb_note(encounter: &Encounter, line: &[u8]) -> Option<Note>
    ensures { result ≡ climb_note encounter.now (fields_in line.now) }
{
    let craft = named_at(encounter, line, 1)?;
    climb_note_of(encounter, craft)
}

// Of a sender and a receiver, one that isn't of kind RA.
fn silent_of(encounter: &Encounter, sender: Named, receiver: Named) -> Named
    ensures { result ≡ silent_of encounter.now sender receiver }
{
    if is_ra_at(encounter.crafts(), sender.index) {
        return receiver;
    }
    sender
}

fn plan_note_of(encounter: &Encounter, sender: Named, receiver: Named) -> Option<Note>
    ensures { result ≡ plan_note_of encounter.now sender receiver }
{
    if are_ra(encounter.crafts(), sender.index, receiver.index) {
        return None;
    }
    Some(Note::IdlePlan {
        silent: silent_of(encounter, sender, receiver).address,
    })
}

fn plan_note(encounter: &Encounter, line: &[u8]) -> Option<Note>
    ensures { result ≡ plan_note encounter.now (fields_in line.now) }
{
    let sender = named_at(encounter, line, 1)?;
    let receiver = named_at(encounter, line, 2)?;
    plan_note_of(encounter, sender, receiver)
}

// ---- fates

// The note of fates of messages that aren't sent, between two aircraft of kind RA.
fn unsent_note(source: &Source<'_>, sender: Named, receiver: Named, more: usize) -> Note
    requires sender { sender.index < length (encounter_in source.now).crafts }
    requires receiver { receiver.index < length (encounter_in source.now).crafts }
    ensures { result ≡ unsent_note (encounter_in source.now) (journal_in source.now) sender receiver more }
{
    let most = source.most_sent(sender.index, receiver.index);
    match *source {
        Source::Encounter(_) => Note::LateFates {
            more,
            sender: sender.address,
            receiver: receiver.address,
            last: most,
        },
        Source::Recording(_) => Note::UnsentFates {
            more,
            sender: sender.address,
            receiver: receiver.address,
            sent: most,
        },
    }
}

fn idle_note(source: &Source<'_>, sender: Named, receiver: Named, more: usize) -> Note
    requires sender { sender.index < length (encounter_in source.now).crafts }
    requires receiver { receiver.index < length (encounter_in source.now).crafts }
    ensures { result ≡ idle_note (encounter_in source.now) (journal_in source.now) sender receiver more }
{
    let encounter = source.encounter();
    if are_ra(encounter.crafts(), sender.index, receiver.index) {
        return unsent_note(source, sender, receiver, more);
    }
    Note::SilentFates {
        more,
        silent: silent_of(encounter, sender, receiver).address,
    }
}

// The note of a fate, where it is the first idle one of its pair.
fn fate_note_of(
    source: &Source<'_>,
    firsts: &[Option<u16>; PAIRS],
    sender: Named,
    receiver: Named,
    number: u16,
) -> Option<Note>
    requires firsts { AreFirsts (encounter_in source.now) (journal_in source.now) firsts.now }
    requires sender { sender.index < length (encounter_in source.now).crafts }
    requires receiver { receiver.index < length (encounter_in source.now).crafts }
    ensures { result ≡ fate_note_of (encounter_in source.now) (journal_in source.now) sender receiver number }
{
    source.encounter().valid_law();
    let pair = pair_of(sender.index, receiver.index);
    let first = firsts[pair]?;
    if first != number {
        return None;
    }
    let more = count_idle(source, pair).saturating_sub(1);
    Some(idle_note(source, sender, receiver, more))
}

fn fate_note(source: &Source<'_>, firsts: &[Option<u16>; PAIRS], line: &[u8]) -> Option<Note>
    requires { AreFirsts (encounter_in source.now) (journal_in source.now) firsts.now }
    ensures { result ≡ fate_note (encounter_in source.now) (journal_in source.now) (fields_in line.now) }
{
    let sender = named_at(source.encounter(), line, 1)?;
    let receiver = named_at(source.encounter(), line, 2)?;
    let number = count_at(line, 3)?;
    fate_note_of(source, firsts, sender, receiver, number)
}

/// The note of a record that is no aircraft.
pub(crate) fn record_note(
    source: &Source<'_>,
    firsts: &[Option<u16>; PAIRS],
    kind: RecordKind,
    line: &[u8],
) -> Option<Note>
    requires { AreFirsts (encounter_in source.now) (journal_in source.now) firsts.now }
    ensures { result ≡ record_note (encounter_in source.now) (journal_in source.now) (stated_kind kind) (fields_in line.now) }
{
    match kind {
        RecordKind::Climb => climb_note(source.encounter(), line),
        RecordKind::Leg => leg_note(source.encounter(), line),
        RecordKind::Miss => miss_note(source.encounter(), line),
        RecordKind::Plan => plan_note(source.encounter(), line),
        RecordKind::Fate => fate_note(source, firsts, line),
        RecordKind::Run
        | RecordKind::Gains
        | RecordKind::Craft
        | RecordKind::Profile
        | RecordKind::Name
        | RecordKind::Clock
        | RecordKind::Call
        | RecordKind::End => None,
    }
}

// ---- aircraft

fn low_note_of(encounter: &Encounter, craft: Named) -> Option<Note>
    requires inside { IsInside encounter.now }
    requires craft { craft.index < length encounter.now.crafts }
    ensures { result ≡ low_note_of encounter.now craft }
{
    if is_low(encounter, craft.index) {
        return Some(Note::LowAircraft {
            craft: craft.address,
        });
    }
    None
}

/// The note of an aircraft of kind RA that is too near the ground in each cycle.
pub(crate) fn low_note(encounter: &Encounter, line: &[u8]) -> Option<Note>
    requires { IsInside encounter.now }
    ensures { result ≡ for_named encounter.now (fields_in line.now) 1 (low_note_of encounter.now) }
{
    let craft = named_at(encounter, line, 1)?;
    low_note_of(encounter, craft)
}

fn alone_note_of(encounter: &Encounter, craft: Named) -> Option<Note>
    requires { craft.index < length encounter.now.crafts }
    ensures { result ≡ alone_note_of encounter.now craft }
{
    if is_alone(encounter, craft.index) {
        return Some(Note::LoneAircraft {
            craft: craft.address,
        });
    }
    None
}

/// The note of an active aircraft that is too far from all others in each cycle.
pub(crate) fn alone_note(encounter: &Encounter, line: &[u8]) -> Option<Note>
    ensures { result ≡ for_named encounter.now (fields_in line.now) 1 (alone_note_of encounter.now) }
{
    let craft = named_at(encounter, line, 1)?;
    alone_note_of(encounter, craft)
}

fn ground_note_of(encounter: &Encounter, craft: Named) -> Option<Note>
    requires { craft.index < length encounter.now.crafts }
    ensures { result ≡ ground_note_of encounter.now craft }
{
    encounter.valid_law();
    let cycle = first_below(encounter, craft.index)?;
    Some(Note::BelowGround {
        craft: craft.address,
        cycle,
        altitude: own_altitude(encounter, craft.index, cycle),
        ground: encounter.ground(),
    })
}

/// The note of an aircraft that is below the ground.
pub(crate) fn ground_note(encounter: &Encounter, line: &[u8]) -> Option<Note>
    ensures { result ≡ for_named encounter.now (fields_in line.now) 1 (ground_note_of encounter.now) }
{
    let craft = named_at(encounter, line, 1)?;
    ground_note_of(encounter, craft)
}
