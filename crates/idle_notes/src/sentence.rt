// The line of a note.
ghost use Rattle.std.specs.Prelude.{◌≡◌, ◌+◌, ◌≤◌, ◌++◌, length};
ghost use Rattle.acas_text.specs.declared.line.TheConstants.{LINE_BYTES};
ghost use Rattle.idle_notes.specs.Sentences.{count_text, fates_text, last_text, no_ra_text, note_text, sends_text, sentence};
ghost use Rattle.std.specs.Fmt.{decimal};

use crate::aircraft::longest_range;
use crate::note::Note;
use acas_base::Address;
use acas_text::Line;
use itoa::Buffer;

// Adds how many there are.
fn add_count(line: &mut Line, count: usize)
    requires { length line.old + 40 ≤ LINE_BYTES }
    ensures added { line.new ≡ line.old ++ decimal count }
    ensures short { length line.new ≤ length line.old + 40 }
{
    let mut digits = Buffer::new();
    line.text(digits.format(count));
}

fn add_last(line: &mut Line, last: u16)
    requires { length line.old + 30 ≤ LINE_BYTES }
    ensures added { line.new ≡ line.old ++ last_text last }
    ensures short { length line.new ≤ length line.old + 30 }
{
    line.text("cycle ");
    line.u16(last);
    line.text(", the last one");
}

fn add_no_ra(line: &mut Line, craft: Address)
    requires { length line.old + 30 ≤ LINE_BYTES }
    ensures added { line.new ≡ line.old ++ no_ra_text craft }
    ensures short { length line.new ≤ length line.old + 30 }
{
    line.address(craft.value());
    line.text(" isn't of kind RA");
}

fn add_fates(line: &mut Line, more: usize)
    requires { length line.old + 100 ≤ LINE_BYTES }
    ensures added { line.new ≡ line.old ++ fates_text more }
    ensures short { length line.new ≤ length line.old + 100 }
{
    if more == 0 {
        line.text("this fate has no effect: ");
        return;
    }
    line.text("this fate and ");
    add_count(line, more);
    line.text(" more of this pair have no effect: ");
}

fn add_sends(line: &mut Line, sender: Address, receiver: Address)
    requires { length line.old + 20 ≤ LINE_BYTES }
    ensures added { line.new ≡ line.old ++ sends_text sender receiver }
    ensures short { length line.new ≤ length line.old + 20 }
{
    line.address(sender.value());
    line.text(" sends ");
    line.address(receiver.value());
}

fn add_sent(line: &mut Line, sent: u16)
    requires { length line.old + 30 ≤ LINE_BYTES }
    ensures added { line.new ≡ line.old ++ count_text sent }
    ensures short { length line.new ≤ length line.old + 30 }
{
    if sent == 0 {
        line.text(" no message");
        return;
    }
    if sent == 1 {
        line.text(" only 1 message");
        return;
    }
    line.text(" only ");
    line.u16(sent);
    line.text(" messages");
}

// Adds that a leg would move its aircraft too late.
fn add_late_leg(line: &mut Line, craft: Address, last: u16)
    requires { length line.old + 100 ≤ LINE_BYTES }
    ensures added { line.new ≡ line.old ++ note_text (Note.LateLeg craft last) }
    ensures short { length line.new ≤ length line.old + 100 }
{
    line.text("this leg has no effect: it would move ");
    line.address(craft.value());
    line.text(" after ");
    add_last(line, last);
}

fn add_same_rates(line: &mut Line, craft: Address)
    requires { length line.old + 100 ≤ LINE_BYTES }
    ensures added { line.new ≡ line.old ++ note_text (Note.SameRates craft) }
    ensures short { length line.new ≤ length line.old + 100 }
{
    line.text("this leg has no effect: ");
    line.address(craft.value());
    line.text(" has these rates already");
}

fn add_passive_miss(line: &mut Line, own: Address)
    requires { length line.old + 100 ≤ LINE_BYTES }
    ensures added { line.new ≡ line.old ++ note_text (Note.PassiveMiss own) }
    ensures short { length line.new ≤ length line.old + 100 }
{
    line.text("this miss has no effect: ");
    line.address(own.value());
    line.text(" is of kind XPDR, and measures nobody");
}

fn add_silent_fates(line: &mut Line, more: usize, silent: Address)
    requires { length line.old + 200 ≤ LINE_BYTES }
    ensures added { line.new ≡ line.old ++ note_text (Note.SilentFates more silent) }
    ensures short { length line.new ≤ length line.old + 200 }
{
    add_fates(line, more);
    add_no_ra(line, silent);
}

fn add_unsent_fates(line: &mut Line, more: usize, sender: Address, receiver: Address, sent: u16)
    requires { length line.old + 200 ≤ LINE_BYTES }
    ensures added { line.new ≡ line.old ++ note_text (Note.UnsentFates more sender receiver sent) }
    ensures short { length line.new ≤ length line.old + 200 }
{
    add_fates(line, more);
    add_sends(line, sender, receiver);
    add_sent(line, sent);
}

fn add_late_fates(line: &mut Line, more: usize, sender: Address, receiver: Address, last: u16)
    requires { length line.old + 250 ≤ LINE_BYTES }
    ensures added { line.new ≡ line.old ++ note_text (Note.LateFates more sender receiver last) }
    ensures short { length line.new ≤ length line.old + 250 }
{
    add_fates(line, more);
    add_sends(line, sender, receiver);
    line.text(" at most one message in a cycle, up to ");
    add_last(line, last);
}

fn add_low(line: &mut Line, craft: Address)
    requires { length line.old + 150 ≤ LINE_BYTES }
    ensures added { line.new ≡ line.old ++ note_text (Note.LowAircraft craft) }
    ensures short { length line.new ≤ length line.old + 150 }
{
    line.address(craft.value());
    line.text(
        " gives no resolution advisories: it is too near the ground in each cycle (sensitivity level 2)",
    );
}

fn add_alone(line: &mut Line, craft: Address)
    requires { length line.old + 150 ≤ LINE_BYTES }
    ensures added { line.new ≡ line.old ++ note_text (Note.LoneAircraft craft) }
    ensures short { length line.new ≤ length line.old + 150 }
{
    line.address(craft.value());
    line.text(" measures nobody: it is never within ");
    line.u32(longest_range());
    line.text(" ft of another aircraft");
}

fn add_below(line: &mut Line, craft: Address, cycle: u16, altitude: i32, ground: i32)
    requires { length line.old + 150 ≤ LINE_BYTES }
    ensures added { line.new ≡ line.old ++ note_text (Note.BelowGround craft cycle altitude ground) }
    ensures short { length line.new ≤ length line.old + 150 }
{
    line.address(craft.value());
    line.text(" is below the ground in cycle ");
    line.u16(cycle);
    line.text(": its altitude is ");
    line.i32(altitude);
    line.text(" ft, and the ground is at ");
    line.i32(ground);
    line.text(" ft");
}

// Adds what is noted.
fn add_note(line: &mut Line, note: &Note)
    requires { length line.old + 250 ≤ LINE_BYTES }
    ensures added { line.new ≡ line.old ++ note_text note.now }
    ensures short { length line.new ≤ length line.old + 250 }
{
    match *note {
        Note::LateLeg { craft, last } => add_late_leg(line, craft, last),
        Note::SameRates { craft } => add_same_rates(line, craft),
        Note::PassiveMiss { own } => add_passive_miss(line, own),
        Note::LateMiss { last } => {
            line.text("this miss has no effect: it begins after ");
            add_last(line, last);
        }
        Note::IdleClimb { craft } => {
            line.text("this climb has no effect: ");
            add_no_ra(line, craft);
        }
        Note::IdlePlan { silent } => {
            line.text("this plan has no effect: ");
            add_no_ra(line, silent);
        }
        Note::SilentFates { more, silent } => add_silent_fates(line, more, silent),
        Note::UnsentFates {
            more,
            sender,
            receiver,
            sent,
        } => add_unsent_fates(line, more, sender, receiver, sent),
        Note::LateFates {
            more,
            sender,
            receiver,
            last,
        } => add_late_fates(line, more, sender, receiver, last),
        Note::LowAircraft { craft } => add_low(line, craft),
        Note::LoneAircraft { craft } => add_alone(line, craft),
        Note::BelowGround {
            craft,
            cycle,
            altitude,
            ground,
        } => add_below(line, craft, cycle, altitude, ground),
    }
}

impl Note {
    /// The line that tells it of a line of the file.
    pub(crate) fn sentence(&self, number: u32) -> Line
        ensures { result ≡ sentence number self.now }
    {
        let mut line = Line::new();
        line.text("line ");
        line.u32(number);
        line.text(": ");
        add_note(&mut line, self);
        line.text("\n");
        line
    }
}
