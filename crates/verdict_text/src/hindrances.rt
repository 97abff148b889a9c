// What is told of an entry that isn't allowed.
ghost use Rattle.std.specs.Prelude.{◌≡◌, ◌+◌, ◌≤◌, ◌++◌, length};
ghost use Rattle.acas_text.specs.declared.line.TheConstants.{LINE_BYTES};
ghost use Rattle.verdict_text.specs.Sentences.{commit_text, inactive_text, no_commit_text, no_send_text, no_take_text, send_text, take_text};
ghost use Rattle.verdict_text.specs.declared.causes.CommitCause.TheVariants as commit_cause;
ghost use Rattle.verdict_text.specs.declared.causes.SendCause.TheVariants as send_cause;
ghost use Rattle.verdict_text.specs.declared.causes.TakeCause.TheVariants as take_cause;

use crate::causes::{CommitCause, SendCause, TakeCause};
use crate::pieces::{add_counted, add_craft, add_few, add_small};
use acas_text::Line;

// Adds that an aircraft makes no entries.
fn add_inactive(line: &mut Line, own: u8)
    requires { length line.old + 60 ≤ LINE_BYTES }
    ensures added { line.new ≡ line.old ++ inactive_text own }
    ensures short { length line.new ≤ length line.old + 60 }
{
    add_craft(line, own);
    line.text(" is of kind XPDR, and makes no entries");
}

// ---- commits

fn add_no_commit(line: &mut Line, own: u8, cycle: u16)
    requires { length line.old + 60 ≤ LINE_BYTES }
    ensures added { line.new ≡ line.old ++ no_commit_text own cycle }
    ensures short { length line.new ≤ length line.old + 60 }
{
    add_craft(line, own);
    line.text(" may not commit cycle ");
    line.u16(cycle);
    line.text(" here: ");
}

fn add_over(line: &mut Line, own: u8, cycle: u16, cycles: u16)
    requires { length line.old + 200 ≤ LINE_BYTES }
    ensures added { line.new ≡ line.old ++ commit_text own cycle (commit_cause.Over cycles) }
    ensures short { length line.new ≤ length line.old + 200 }
{
    add_no_commit(line, own, cycle);
    line.text("it has committed all ");
    line.u16(cycles);
}

fn add_other_cycle(line: &mut Line, own: u8, cycle: u16, next: u16)
    requires { length line.old + 200 ≤ LINE_BYTES }
    ensures added { line.new ≡ line.old ++ commit_text own cycle (commit_cause.OtherCycle next) }
    ensures short { length line.new ≤ length line.old + 200 }
{
    add_no_commit(line, own, cycle);
    line.text("its next cycle is ");
    line.u16(next);
}

fn add_owes(line: &mut Line, own: u8, cycle: u16, target: u8)
    requires { length line.old + 200 ≤ LINE_BYTES }
    ensures added { line.new ≡ line.old ++ commit_text own cycle (commit_cause.Owes target) }
    ensures short { length line.new ≤ length line.old + 200 }
{
    add_no_commit(line, own, cycle);
    line.text("it owes aircraft ");
    add_small(line, target);
    line.text(" a message");
}

fn add_due(line: &mut Line, own: u8, cycle: u16, send: u32, copy: u8)
    requires { length line.old + 200 ≤ LINE_BYTES }
    ensures added { line.new ≡ line.old ++ commit_text own cycle (commit_cause.Due send copy) }
    ensures short { length line.new ≤ length line.old + 200 }
{
    add_no_commit(line, own, cycle);
    line.text("copy ");
    add_small(line, copy);
    line.text(" of the message of position ");
    line.u32(send);
    line.text(" is due to it");
}

fn add_ahead(line: &mut Line, own: u8, cycle: u16, other: u8, commits: u16)
    requires { length line.old + 200 ≤ LINE_BYTES }
    ensures added { line.new ≡ line.old ++ commit_text own cycle (commit_cause.Ahead other commits) }
    ensures short { length line.new ≤ length line.old + 200 }
{
    add_no_commit(line, own, cycle);
    add_craft(line, other);
    line.text(" has committed fewer cycles, ");
    line.u16(commits);
}

/// Adds why an aircraft may not commit a cycle.
pub(crate) fn add_commit(line: &mut Line, own: u8, cycle: u16, cause: CommitCause)
    requires { length line.old + 200 ≤ LINE_BYTES }
    ensures added { line.new ≡ line.old ++ commit_text own cycle cause }
    ensures short { length line.new ≤ length line.old + 200 }
{
    match cause {
        CommitCause::Inactive => add_inactive(line, own),
        CommitCause::Over { cycles } => add_over(line, own, cycle, cycles),
        CommitCause::OtherCycle { next } => add_other_cycle(line, own, cycle, next),
        CommitCause::Owes { target } => add_owes(line, own, cycle, target),
        CommitCause::Due { send, copy } => add_due(line, own, cycle, send, copy),
        CommitCause::Ahead { other, commits } => add_ahead(line, own, cycle, other, commits),
    }
}

// ---- sends

fn add_no_send(line: &mut Line, own: u8, target: u8)
    requires { length line.old + 60 ≤ LINE_BYTES }
    ensures added { line.new ≡ line.old ++ no_send_text own target }
    ensures short { length line.new ≤ length line.old + 60 }
{
    add_craft(line, own);
    line.text(" may not send to aircraft ");
    add_small(line, target);
    line.text(" here: ");
}

fn add_owes_nobody(line: &mut Line, own: u8, target: u8)
    requires { length line.old + 200 ≤ LINE_BYTES }
    ensures added { line.new ≡ line.old ++ send_text own target send_cause.OwesNobody }
    ensures short { length line.new ≤ length line.old + 200 }
{
    add_no_send(line, own, target);
    line.text("it owes nobody a message");
}

fn add_owes_first(line: &mut Line, own: u8, target: u8, first: u8)
    requires { length line.old + 200 ≤ LINE_BYTES }
    ensures added { line.new ≡ line.old ++ send_text own target (send_cause.OwesFirst first) }
    ensures short { length line.new ≤ length line.old + 200 }
{
    add_no_send(line, own, target);
    line.text("it owes aircraft ");
    add_small(line, first);
    line.text(" a message first");
}

/// Adds why an aircraft may not send to another one.
pub(crate) fn add_send(line: &mut Line, own: u8, target: u8, cause: SendCause)
    requires { length line.old + 200 ≤ LINE_BYTES }
    ensures added { line.new ≡ line.old ++ send_text own target cause }
    ensures short { length line.new ≤ length line.old + 200 }
{
    match cause {
        SendCause::Inactive => add_inactive(line, own),
        SendCause::OwesNobody => add_owes_nobody(line, own, target),
        SendCause::OwesFirst { target: first } => add_owes_first(line, own, target, first),
    }
}

// ---- takes

fn add_no_take(line: &mut Line, own: u8, send: u32, copy: u8)
    requires { length line.old + 80 ≤ LINE_BYTES }
    ensures added { line.new ≡ line.old ++ no_take_text own send copy }
    ensures short { length line.new ≤ length line.old + 80 }
{
    add_craft(line, own);
    line.text(" may not take copy ");
    add_small(line, copy);
    line.text(" of position ");
    line.u32(send);
    line.text(" here: ");
}

fn add_no_message(line: &mut Line, own: u8, send: u32, copy: u8)
    requires { length line.old + 200 ≤ LINE_BYTES }
    ensures added { line.new ≡ line.old ++ take_text own send copy take_cause.NoMessage }
    ensures short { length line.new ≤ length line.old + 200 }
{
    add_no_take(line, own, send, copy);
    line.text("at this position no message was sent to it");
}

fn add_no_copy(line: &mut Line, own: u8, send: u32, copy: u8, copies: u8)
    requires { length line.old + 200 ≤ LINE_BYTES }
    ensures added { line.new ≡ line.old ++ take_text own send copy (take_cause.NoCopy copies) }
    ensures short { length line.new ≤ length line.old + 200 }
{
    add_no_take(line, own, send, copy);
    line.text("the message has ");
    add_few(line, copies, " copy", " copies");
    line.text(", numbered from 0");
}

fn add_taken(line: &mut Line, own: u8, send: u32, copy: u8, position: u32)
    requires { length line.old + 200 ≤ LINE_BYTES }
    ensures added { line.new ≡ line.old ++ take_text own send copy (take_cause.Taken position) }
    ensures short { length line.new ≤ length line.old + 200 }
{
    add_no_take(line, own, send, copy);
    line.text("it took it at position ");
    line.u32(position);
}

fn add_held(line: &mut Line, own: u8, send: u32, copy: u8, commits: u16)
    requires { length line.old + 200 ≤ LINE_BYTES }
    ensures added { line.new ≡ line.old ++ take_text own send copy (take_cause.Held commits) }
    ensures short { length line.new ≤ length line.old + 200 }
{
    add_no_take(line, own, send, copy);
    line.text("it is held back for ");
    add_counted(line, u32::from(commits), " more commit", " more commits");
}

/// Adds why an aircraft may not take a copy.
pub(crate) fn add_take(line: &mut Line, own: u8, send: u32, copy: u8, cause: TakeCause)
    requires { length line.old + 200 ≤ LINE_BYTES }
    ensures added { line.new ≡ line.old ++ take_text own send copy cause }
    ensures short { length line.new ≤ length line.old + 200 }
{
    match cause {
        TakeCause::Inactive => add_inactive(line, own),
        TakeCause::NoMessage => add_no_message(line, own, send, copy),
        TakeCause::NoCopy { copies } => add_no_copy(line, own, send, copy, copies),
        TakeCause::Taken { position } => add_taken(line, own, send, copy, position),
        TakeCause::Held { commits } => add_held(line, own, send, copy, commits),
    }
}
