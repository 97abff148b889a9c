// What entries are about.
ghost use Rattle.std.specs.Prelude.{◌≡◌, ◌∷◌, ◌<◌, ◌≤◌, codes};
ghost use Rattle.acas_base.specs.declared.TheConstants.{CRAFTS};
ghost use Rattle.rec_audit.specs.Reading.{ReadsKey, ReadsKeyFields};

use crate::fields::Fields;

/// What an entry is about: a commit of an aircraft and a cycle, a send of a pair, or a take of a copy by an aircraft.
#[derive(Clone, Copy)]
pub(crate) enum Key {
    Commit { own: u8, cycle: u16 },
    Send { own: u8, target: u8 },
    Take { own: u8, send: u32, copy: u8 },
}

fn commit_key(fields: &mut Fields<'_>, count: u8) -> Option<Key>
    requires { (0 < count) × (count ≤ CRAFTS) }
    ensures { ReadsKeyFields count (codes "c" ∷ fields.old) fields.new result }
{
    let own = fields.number(0, u32::from(count) - 1)?;
    let cycle = fields.number(1, 600)?;
    Some(Key::Commit {
        own: own as u8,
        cycle: cycle as u16,
    })
}

fn send_key(fields: &mut Fields<'_>, count: u8) -> Option<Key>
    requires { (0 < count) × (count ≤ CRAFTS) }
    ensures { ReadsKeyFields count (codes "s" ∷ fields.old) fields.new result }
{
    let own = fields.number(0, u32::from(count) - 1)?;
    let target = fields.number(0, u32::from(count) - 1)?;
    Some(Key::Send {
        own: own as u8,
        target: target as u8,
    })
}

fn take_key(fields: &mut Fields<'_>, count: u8) -> Option<Key>
    requires { (0 < count) × (count ≤ CRAFTS) }
    ensures { ReadsKeyFields count (codes "t" ∷ fields.old) fields.new result }
{
    let own = fields.number(0, u32::from(count) - 1)?;
    let send = fields.number(0, u32::MAX)?;
    let copy = fields.number(0, 2)?;
    Some(Key::Take {
        own: own as u8,
        send,
        copy: copy as u8,
    })
}

/// The key that comes first in the fields of a line. This call and `read_key` are inlined, so that the fields are kept
/// in registers where each line of a recording is read. Without that, judging a recording of 8 or 16 aircraft takes 8
/// or 12 per cent more instructions.
#[inline(always)]
pub(crate) fn key_of(fields: &mut Fields<'_>, count: u8) -> Option<Key>
    requires { (0 < count) × (count ≤ CRAFTS) }
    ensures { ReadsKeyFields count fields.old fields.new result }
{
    match fields.letter()? {
        b'c' => commit_key(fields, count),
        b's' => send_key(fields, count),
        b't' => take_key(fields, count),
        _ => None,
    }
}

/// The key of the entry whose line a text begins with, in an encounter of `count` aircraft. None only where the text
/// begins with the line of no entry. It reads no byte behind the key.
#[inline(always)]
pub(crate) fn read_key(text: &[u8], count: u8) -> Option<Key>
    requires { (0 < count) × (count ≤ CRAFTS) }
    ensures { ReadsKey count text.now result }
{
    key_of(&mut Fields::of(text), count)
}
