// The sentence of a fault.
ghost use Rattle.std.specs.Prelude.{◌≡◌, ◌+◌, ◌≤◌, ◌++◌, length};
ghost use Rattle.acas_text.specs.declared.line.TheConstants.{LINE_BYTES};
ghost use Rattle.verdict_text.specs.Sentences.{entries_text, found_text, lack_text, sentence, why_text};
ghost use Rattle.verdict_text.specs.declared.fault.Why.TheVariants as why;
ghost use Rattle.verdict_text.specs.declared.sentence.TheConstants.{WHY_BYTES};

use crate::causes::Lack;
use crate::fault::{Fault, Found, Why};
use crate::forms::{add_field_count, add_value};
use crate::hindrances::{add_commit, add_send, add_take};
use crate::pieces::{add_counted, add_craft, add_quoted, add_small};
use crate::wanted::Wanted;
use acas_text::Line;
use fault_text::add_shown;

// The most bytes that `add_why` adds.
const WHY_BYTES: usize = 480;

// Adds what stands in a line.
fn add_found(line: &mut Line, found: &Found<'_>)
    requires { length line.old + 190 ≤ LINE_BYTES }
    ensures added { line.new ≡ line.old ++ found_text found.now }
    ensures short { length line.new ≤ length line.old + 190 }
{
    match *found {
        Found::Missing => line.text("is missing"),
        Found::Whole(body) => {
            line.text("is ");
            add_shown(line, body);
        }
        Found::Unfinished(text) => {
            line.text("is ");
            add_shown(line, text);
            line.text(" without a line feed");
        }
    }
}

// Adds which line has to stand there, and what does.
fn add_other_line(line: &mut Line, wanted: &Wanted, found: &Found<'_>)
    requires { length line.old + WHY_BYTES ≤ LINE_BYTES }
    ensures added { line.new ≡ line.old ++ why_text (why.OtherLine wanted.entry found.now) }
    ensures short { length line.new ≤ length line.old + WHY_BYTES }
{
    line.text("this line has to be ");
    add_quoted(line, wanted);
    line.text(", and ");
    add_found(line, found);
}

// Adds how a line of the encounter would be written.
fn add_not_canonical(line: &mut Line, wanted: &Wanted)
    requires { length line.old + WHY_BYTES ≤ LINE_BYTES }
    ensures added { line.new ≡ line.old ++ why_text (why.NotCanonical wanted.entry) }
    ensures short { length line.new ≤ length line.old + WHY_BYTES }
{
    line.text("the encounter isn't in its canonical text; there this line would be ");
    add_quoted(line, wanted);
}

// Adds that the number of entries has to stand there, and what does.
fn add_no_count(line: &mut Line, found: &Found<'_>)
    requires { length line.old + WHY_BYTES ≤ LINE_BYTES }
    ensures added { line.new ≡ line.old ++ why_text (why.NoCount found.now) }
    ensures short { length line.new ≤ length line.old + WHY_BYTES }
{
    line.text("this line has to be \"journal,\" and a number from 0 to 999999999, and ");
    add_found(line, found);
}

// Adds how many entries are announced, and how many stand before the line.
fn add_entries(line: &mut Line, announced: u32, entries: u32)
    requires { length line.old + 100 ≤ LINE_BYTES }
    ensures added { line.new ≡ line.old ++ entries_text announced entries }
    ensures short { length line.new ≤ length line.old + 100 }
{
    add_counted(
        line,
        announced,
        " entry is announced, and ",
        " entries are announced, and ",
    );
    add_counted(line, entries, " stands here", " stand here");
}

// Adds that the line of an entry is missing.
fn add_no_entry(line: &mut Line, announced: u32, entries: u32)
    requires { length line.old + WHY_BYTES ≤ LINE_BYTES }
    ensures added { line.new ≡ line.old ++ why_text (why.NoEntry announced entries) }
    ensures short { length line.new ≤ length line.old + WHY_BYTES }
{
    line.text("this line is missing: ");
    add_entries(line, announced, entries);
}

// Adds that the report begins in place of the line of an entry.
fn add_early_report(line: &mut Line, announced: u32, entries: u32)
    requires { length line.old + WHY_BYTES ≤ LINE_BYTES }
    ensures added { line.new ≡ line.old ++ why_text (why.EarlyReport announced entries) }
    ensures short { length line.new ≤ length line.old + WHY_BYTES }
{
    line.text("the report begins too early: ");
    add_entries(line, announced, entries);
}

// Adds a text that has no line feed.
fn add_unfinished(line: &mut Line, found: &[u8])
    requires { length line.old + WHY_BYTES ≤ LINE_BYTES }
    ensures added { line.new ≡ line.old ++ why_text (why.Unfinished found.entry) }
    ensures short { length line.new ≤ length line.old + WHY_BYTES }
{
    add_shown(line, found);
    line.text(" has no line feed: the recording is cut off here");
}

// Adds what names no kind of entry.
fn add_no_kind(line: &mut Line, found: &[u8])
    requires { length line.old + WHY_BYTES ≤ LINE_BYTES }
    ensures added { line.new ≡ line.old ++ why_text (why.NoKind found.entry) }
    ensures short { length line.new ≤ length line.old + WHY_BYTES }
{
    add_shown(line, found);
    line.text(" is no kind of entry (c, s, t)");
}

// Adds the line that is allowed.
fn add_other_content(line: &mut Line, wanted: &Wanted)
    requires { length line.old + WHY_BYTES ≤ LINE_BYTES }
    ensures added { line.new ≡ line.old ++ why_text (why.OtherContent wanted.entry) }
    ensures short { length line.new ≤ length line.old + WHY_BYTES }
{
    line.text("here this line would be ");
    add_quoted(line, wanted);
}

// Adds who hasn't committed all cycles.
fn add_lacking_commits(line: &mut Line, own: u8, commits: u16, cycles: u16)
    requires { length line.old + 100 ≤ LINE_BYTES }
    ensures added { line.new ≡ line.old ++ lack_text (Lack.Commits own commits cycles) }
    ensures short { length line.new ≤ length line.old + 100 }
{
    add_craft(line, own);
    line.text(" has committed ");
    line.u16(commits);
    line.text(" of ");
    add_counted(line, u32::from(cycles), " cycle", " cycles");
}

// Adds who owes a message.
fn add_lacking_message(line: &mut Line, sender: u8, receiver: u8)
    requires { length line.old + 100 ≤ LINE_BYTES }
    ensures added { line.new ≡ line.old ++ lack_text (Lack.Message sender receiver) }
    ensures short { length line.new ≤ length line.old + 100 }
{
    add_craft(line, sender);
    line.text(" owes aircraft ");
    add_small(line, receiver);
    line.text(" a message");
}

fn add_lack(line: &mut Line, lack: Lack)
    requires { length line.old + 100 ≤ LINE_BYTES }
    ensures added { line.new ≡ line.old ++ lack_text lack }
    ensures short { length line.new ≤ length line.old + 100 }
{
    match lack {
        Lack::Commits {
            own,
            commits,
            cycles,
        } => add_lacking_commits(line, own, commits, cycles),
        Lack::Message { sender, receiver } => add_lacking_message(line, sender, receiver),
    }
}

// Adds that the entries end too early.
fn add_incomplete(line: &mut Line, lack: Lack)
    requires { length line.old + WHY_BYTES ≤ LINE_BYTES }
    ensures added { line.new ≡ line.old ++ why_text (why.Incomplete lack) }
    ensures short { length line.new ≤ length line.old + WHY_BYTES }
{
    line.text("the entries end too early: ");
    add_lack(line, lack);
}

// Adds why a line can't stand there.
fn add_why(line: &mut Line, why: &Why<'_>)
    requires { length line.old + WHY_BYTES ≤ LINE_BYTES }
    ensures added { line.new ≡ line.old ++ why_text why.now }
    ensures short { length line.new ≤ length line.old + WHY_BYTES }
{
    match *why {
        Why::Mark => line.text(
            "a byte order mark stands in front of this line, and a recording has none",
        ),
        Why::CarriageReturn => line.text(
            "a carriage return stands in this line, and the lines of a recording end with a line feed alone",
        ),
        Why::OtherLine { wanted, found } => add_other_line(line, wanted, &found),
        Why::TooMany => line.text("this line is one too many: the recording ends with \"close\""),
        Why::NoEnd => line.text(
            "no line is \"end\": the recording is cut off in its encounter, or is none",
        ),
        Why::NotCanonical { wanted } => add_not_canonical(line, wanted),
        Why::NoCount { found } => add_no_count(line, &found),
        Why::NoEntry { announced, entries } => add_no_entry(line, announced, entries),
        Why::EarlyReport { announced, entries } => add_early_report(line, announced, entries),
        Why::Unfinished { found } => add_unfinished(line, found),
        Why::NoKind { found } => add_no_kind(line, found),
        Why::FieldCount {
            kind,
            crafts,
            fields,
        } => add_field_count(line, kind, crafts, fields),
        Why::NoValue {
            name,
            crafts,
            found,
        } => add_value(line, name, crafts, found),
        Why::NoCommit { own, cycle, cause } => add_commit(line, own, cycle, cause),
        Why::NoSend { own, target, cause } => add_send(line, own, target, cause),
        Why::NoTake {
            own,
            send,
            copy,
            cause,
        } => add_take(line, own, send, copy, cause),
        Why::OtherContent { wanted } => add_other_content(line, wanted),
        Why::Incomplete { lack } => add_incomplete(line, lack),
    }
}

impl Fault<'_> {
    /// The line that tells it, with its line feed.
    pub fn sentence(&self) -> Line
        ensures { result ≡ sentence self.now }
    {
        let mut line = Line::new();
        line.text("line ");
        line.u32(self.line);
        line.text(": ");
        add_why(&mut line, &self.why);
        line.text("\n");
        line
    }
}
