// What happens to a message.
ghost use Rattle.std.specs.Prelude.{◌≡◌, ◌≤◌, false, find, length, true};
ghost use Rattle.std.specs.List.Sorted.{IsPartitionPoint};
ghost use Rattle.acas_base.specs.Encounter.{plain_copy};
ghost use Rattle.acas_base.specs.Fates.{fate_by, is_fate_of, is_plan_of, plain_fate};
ghost use Rattle.acas_base.specs.Order.{IsRising, below_by, fate_below, has_key, is_below, plan_below};

use crate::keys::{Key, Keyed, is_below, is_same, key};
use crate::{CopyPlan, Fate, LinkPlan};

// How many records stand before a key.
fn count_below<T: Keyed>(records: &[T], wanted: Key) -> usize
    requires { IsRising (below_by T.key_of) records.now }
    ensures bound { result ≤ length records.now }
    ensures parted { IsPartitionPoint (λ it. is_below (T.key_of it) wanted ≡ true) (λ it. is_below (T.key_of it) wanted ≡ false) records.now result }
{
    records.partition_point(|record| { is_below(record.key(), wanted) })
}

fn has_key<T: Keyed>(found: &T, wanted: Key) -> bool
    ensures { result ≡ has_key T.key_of wanted found.now }
{
    is_same(found.key(), wanted)
}

// The record with a key, among records in their order.
fn find_by_key<T: Keyed + Copy>(records: &[T], wanted: Key) -> Option<T>
    requires { IsRising (below_by T.key_of) records.now }
    ensures { result ≡ find (has_key T.key_of wanted) records.now }
{
    let at = count_below(records, wanted);
    if at == records.len() {
        return None;
    }
    let found = records[at];
    if has_key(&found, wanted) {
        Some(found)
    } else {
        None
    }
}

// The record of a message, among records in their order.
pub(crate) fn find_fate(fates: &[Fate], sender: u8, receiver: u8, number: u16) -> Option<Fate>
    requires { IsRising fate_below fates.now }
    ensures { result ≡ find (is_fate_of sender receiver number) fates.now }
{
    find_by_key(fates, key(sender, receiver, number))
}

// The plan of a link, among plans in their order.
pub(crate) fn find_plan(plans: &[LinkPlan], sender: u8, receiver: u8) -> Option<LinkPlan>
    requires { IsRising plan_below plans.now }
    ensures { result ≡ find (is_plan_of sender receiver) plans.now }
{
    find_by_key(plans, key(sender, receiver, 0))
}

// A link's plan, as the fate of one of its messages.
pub(crate) fn fate_by(number: u16, plan: LinkPlan) -> Fate
    ensures { result ≡ fate_by number plan }
{
    Fate {
        sender: plan.sender,
        receiver: plan.receiver,
        number,
        copies: plan.copies,
        first: plan.first,
        second: plan.second,
        third: plan.third,
    }
}

// The one plain copy.
pub(crate) fn plain_fate(sender: u8, receiver: u8, number: u16) -> Fate
    ensures { result ≡ plain_fate sender receiver number }
{
    let plain = CopyPlan { hold: 0, mask: 0 };
    Fate {
        sender,
        receiver,
        number,
        copies: 1,
        first: plain,
        second: plain,
        third: plain,
    }
}
