// How many messages were sent, and what befell them.
ghost use Rattle.std.specs.Prelude.{◌≡◌, ◌≤◌, ◌<◌, is_some, length, true};
ghost use Rattle.air_journal.specs.EntryRefs.{entry_of};
ghost use Rattle.air_rules.specs.Journal.{as_sent, sends};
ghost use Rattle.deliveries.specs.Counts.{AreCounts, AreFew, WithOne, counted, nothing_counted, one_where};
ghost use Rattle.deliveries.specs.Mishaps.{befalls, befalls_sent};
ghost use Rattle.deliveries.specs.Noted.{IsEntryOf};

use crate::deliveries::Deliveries;
use crate::mishap::Mishap;
use air_journal::{AirState, EntryRef};

/// How many messages were sent, and how many of these each mishap befell.
#[derive(Clone, Copy)]
pub struct Counts {
    pub sent: u32,
    pub lost: u32,
    pub spoilt: u32,
    pub held_back: u32,
    pub repeated: u32,
    pub untaken: u32,
}

impl Counts {
    // Nothing is counted yet.
    fn none() -> Counts
        ensures { result ≡ nothing_counted }
    {
        Counts {
            sent: 0,
            lost: 0,
            spoilt: 0,
            held_back: 0,
            repeated: 0,
            untaken: 0,
        }
    }

    /// How many messages this befell.
    pub fn of(self, mishap: Mishap) -> u32
        ensures { result ≡ counted self mishap }
    {
        match mishap {
            Mishap::Lost => self.lost,
            Mishap::Spoilt => self.spoilt,
            Mishap::HeldBack => self.held_back,
            Mishap::Repeated => self.repeated,
            Mishap::Untaken => self.untaken,
        }
    }
}

// 1 where a mishap befalls a message, else 0.
fn one_where(deliveries: &Deliveries, mishap: Mishap, sender: u8, receiver: u8, number: u16) -> u32
    requires sender { sender < length deliveries.now.encounter.crafts }
    requires receiver { receiver < length deliveries.now.encounter.crafts }
    requires first { 1 ≤ number }
    requires last { number ≤ sends deliveries.now.journal sender receiver }
    ensures value { result ≡ one_where (befalls deliveries.now.encounter deliveries.now.journal mishap sender receiver number) }
    ensures few { result ≤ 1 }
{
    if deliveries.befalls(mishap, sender, receiver, number) {
        1
    } else {
        0
    }
}

// Counts a message more.
fn with_message(
    counts: Counts,
    deliveries: &Deliveries,
    sender: u8,
    receiver: u8,
    number: u16,
) -> Counts
    requires few { AreFew counts 4294967294 }
    requires sender { sender < length deliveries.now.encounter.crafts }
    requires receiver { receiver < length deliveries.now.encounter.crafts }
    requires first { 1 ≤ number }
    requires last { number ≤ sends deliveries.now.journal sender receiver }
    ensures { WithOne counts result true (λ mishap. befalls deliveries.now.encounter deliveries.now.journal mishap sender receiver number) }
{
    let lost = one_where(deliveries, Mishap::Lost, sender, receiver, number);
    let spoilt = one_where(deliveries, Mishap::Spoilt, sender, receiver, number);
    let held_back = one_where(deliveries, Mishap::HeldBack, sender, receiver, number);
    let repeated = one_where(deliveries, Mishap::Repeated, sender, receiver, number);
    let untaken = one_where(deliveries, Mishap::Untaken, sender, receiver, number);
    Counts {
        sent: counts.sent + 1,
        lost: counts.lost + lost,
        spoilt: counts.spoilt + spoilt,
        held_back: counts.held_back + held_back,
        repeated: counts.repeated + repeated,
        untaken: counts.untaken + untaken,
    }
}

// Counts an entry more.
fn with_entry(counts: Counts, deliveries: &Deliveries, entry: &EntryRef<'_>) -> Counts
    requires few { AreFew counts 4294967294 }
    requires entry { IsEntryOf deliveries.now.encounter deliveries.now.journal (entry_of entry.now) }
    ensures { WithOne counts result (is_some (as_sent (entry_of entry.now))) (λ mishap. befalls_sent deliveries.now.encounter deliveries.now.journal mishap (entry_of entry.now)) }
{
    match *entry {
        EntryRef::Send {
            own,
            target,
            number,
            ..
        } => with_message(counts, deliveries, own, target, number),
        EntryRef::Commit { .. } | EntryRef::Take { .. } => counts,
    }
}

/// Counts the messages of a journal, in one pass.
pub(crate) fn counts_of(deliveries: &Deliveries, state: &AirState) -> Counts
    requires { deliveries.now ≡ state.now }
    ensures { AreCounts state.now.encounter state.now.journal state.now.journal result }
{
    state.legal_law();
    let mut counts = Counts::none();
    for at in 0..state.count() {
        if let Some(entry) = state.entry_ref(at) {
            counts = with_entry(counts, deliveries, &entry);
        }
    }
    counts
}
