// The end of a summary, as lines.
ghost use Rattle.std.specs.Prelude.{◌≡◌, ◌+◌, ◌≤◌, ◌<◌, ◌++◌, length};
ghost use Rattle.std.specs.List.{flat_map};
ghost use Rattle.acas_io.specs.Stream.{Puts};
ghost use Rattle.acas_text.specs.declared.line.TheConstants.{LINE_BYTES};
ghost use Rattle.deliveries.specs.Counts.{AreCounts};
ghost use Rattle.deliveries.specs.Mishaps.{befallen_of};
ghost use Rattle.deliveries.specs.Text.{all_link_lines, all_missed_lines, count_part, counts_head, counts_line, deliveries_text, link_head, link_line, link_lines, lines_from, mishap_part, mishap_text, mishaps, missed_by, missed_head, missed_lines, missed_text, replies_lines, some_flag, some_mishap};

use crate::counts::Counts;
use crate::deliveries::Deliveries;
use crate::mishap::Mishap;
use crate::misses::{has_misses, missed};
use crate::row_text::add_rows;
use crate::rows::Numbers;
use acas_base::{Address, Encounter};
use acas_io::{Failed, Sink};
use acas_lines::{LineSink, Text, fixed_line, write_text};
use acas_text::Line;

fn mishap_text(mishap: Mishap) -> &'static str
    ensures text { result.now ≡ mishap_text mishap }
    ensures short { length result.now ≤ 20 }
{
    match mishap {
        Mishap::Lost => "lost",
        Mishap::Spoilt => "spoilt",
        Mishap::HeldBack => "held back",
        Mishap::Repeated => "repeated",
        Mishap::Untaken => "not taken by the end",
    }
}

fn craft_count(encounter: &Encounter) -> u8
    ensures { result ≡ length encounter.now.crafts }
{
    encounter.valid_law();
    encounter.crafts().len() as u8
}

// ---- the counts

// Adds how many messages this befell.
fn add_count(line: &mut Line, deliveries: &Deliveries, counts: Counts, mishap: Mishap)
    requires counts { AreCounts deliveries.now.encounter deliveries.now.journal deliveries.now.journal counts }
    requires room { length line.old + 33 ≤ LINE_BYTES }
    ensures added { line.new ≡ line.old ++ count_part deliveries.now.encounter deliveries.now.journal mishap }
    ensures short { length line.new ≤ length line.old + 33 }
{
    line.text(", ");
    line.u32(counts.of(mishap));
    line.text(" ");
    line.text(mishap_text(mishap));
}

fn add_counts(line: &mut Line, deliveries: &Deliveries, counts: Counts)
    requires counts { AreCounts deliveries.now.encounter deliveries.now.journal deliveries.now.journal counts }
    requires room { length line.old + 165 ≤ LINE_BYTES }
    ensures added { line.new ≡ line.old ++ flat_map (count_part deliveries.now.encounter deliveries.now.journal) mishaps }
    ensures short { length line.new ≤ length line.old + 165 }
{
    add_count(line, deliveries, counts, Mishap::Lost);
    add_count(line, deliveries, counts, Mishap::Spoilt);
    add_count(line, deliveries, counts, Mishap::HeldBack);
    add_count(line, deliveries, counts, Mishap::Repeated);
    add_count(line, deliveries, counts, Mishap::Untaken);
}

fn counts_head(sent: u32) -> Line
    ensures value { result ≡ counts_head sent }
    ensures short { length result ≤ 24 }
{
    let mut line = Line::new();
    line.text("MESSAGES ");
    line.u32(sent);
    line.text(" sent");
    line
}

fn counts_line(deliveries: &Deliveries) -> Line
    ensures { result ≡ counts_line deliveries.now.encounter deliveries.now.journal }
{
    let counts = deliveries.counts();
    let mut line = counts_head(counts.sent);
    add_counts(&mut line, deliveries, counts);
    line.text("\n");
    line
}

// ---- the messages from one aircraft to another one

// Adds the rows of those that this befalls, where there are any.
fn add_part(line: &mut Line, deliveries: &Deliveries, sender: u8, receiver: u8, mishap: Mishap)
    requires sender { sender < length deliveries.now.encounter.crafts }
    requires receiver { receiver < length deliveries.now.encounter.crafts }
    requires room { length line.old + 92 ≤ LINE_BYTES }
    ensures added { line.new ≡ line.old ++ mishap_part deliveries.now.encounter deliveries.now.journal sender receiver mishap }
    ensures short { length line.new ≤ length line.old + 90 }
{
    let numbers = deliveries.numbers(mishap, sender, receiver);
    if !numbers.has_marks() {
        return;
    }
    line.text("; ");
    line.text(mishap_text(mishap));
    line.text(" ");
    add_rows(line, &numbers);
}

fn add_parts(line: &mut Line, deliveries: &Deliveries, sender: u8, receiver: u8)
    requires sender { sender < length deliveries.now.encounter.crafts }
    requires receiver { receiver < length deliveries.now.encounter.crafts }
    requires room { length line.old + 452 ≤ LINE_BYTES }
    ensures added { line.new ≡ line.old ++ flat_map (mishap_part deliveries.now.encounter deliveries.now.journal sender receiver) mishaps }
    ensures short { length line.new ≤ length line.old + 450 }
{
    add_part(line, deliveries, sender, receiver, Mishap::Lost);
    add_part(line, deliveries, sender, receiver, Mishap::Spoilt);
    add_part(line, deliveries, sender, receiver, Mishap::HeldBack);
    add_part(line, deliveries, sender, receiver, Mishap::Repeated);
    add_part(line, deliveries, sender, receiver, Mishap::Untaken);
}

fn link_head(sender: Address, receiver: Address, sent: u16) -> Line
    ensures value { result ≡ link_head sender receiver sent }
    ensures short { length result ≤ 30 }
{
    let mut line = Line::new();
    line.text("  ");
    line.address(sender.value());
    line.text(" to ");
    line.address(receiver.value());
    line.text(": ");
    line.u16(sent);
    line.text(" sent");
    line
}

fn link_line(deliveries: &Deliveries, sender: u8, receiver: u8) -> Line
    requires sender { sender < length deliveries.now.encounter.crafts }
    requires receiver { receiver < length deliveries.now.encounter.crafts }
    ensures { result ≡ link_line deliveries.now.encounter deliveries.now.journal sender receiver }
{
    let crafts = deliveries.state().enc().crafts();
    let mut line = link_head(
        crafts[usize::from(sender)].address,
        crafts[usize::from(receiver)].address,
        deliveries.sent(sender, receiver),
    );
    add_parts(&mut line, deliveries, sender, receiver);
    line.text("\n");
    line
}

// Whether this befalls some message.
fn is_some(deliveries: &Deliveries, sender: u8, receiver: u8, mishap: Mishap) -> bool
    requires sender { sender < length deliveries.now.encounter.crafts }
    requires receiver { receiver < length deliveries.now.encounter.crafts }
    ensures { result ≡ some_flag (befallen_of deliveries.now.encounter deliveries.now.journal mishap sender receiver) }
{
    deliveries.numbers(mishap, sender, receiver).has_marks()
}

fn some_mishap(deliveries: &Deliveries, sender: u8, receiver: u8) -> bool
    requires sender { sender < length deliveries.now.encounter.crafts }
    requires receiver { receiver < length deliveries.now.encounter.crafts }
    ensures { result ≡ some_mishap deliveries.now.encounter deliveries.now.journal sender receiver }
{
    if is_some(deliveries, sender, receiver, Mishap::Lost) {
        return true;
    }
    if is_some(deliveries, sender, receiver, Mishap::Spoilt) {
        return true;
    }
    if is_some(deliveries, sender, receiver, Mishap::HeldBack) {
        return true;
    }
    if is_some(deliveries, sender, receiver, Mishap::Repeated) {
        return true;
    }
    is_some(deliveries, sender, receiver, Mishap::Untaken)
}

// Puts the line of two aircraft, where something befalls a message.
fn put_link<S: LineSink>(deliveries: &Deliveries, sender: u8, receiver: u8, sink: &mut S)
    requires sender { sender < length deliveries.now.encounter.crafts }
    requires receiver { receiver < length deliveries.now.encounter.crafts }
    ensures { S.took sink.old sink.new (link_lines deliveries.now.encounter deliveries.now.journal sender receiver) }
{
    if some_mishap(deliveries, sender, receiver) {
        sink.line(&link_line(deliveries, sender, receiver));
    }
}

// Puts those of one sender.
fn put_from<S: LineSink>(deliveries: &Deliveries, sender: u8, sink: &mut S)
    requires { sender < length deliveries.now.encounter.crafts }
    ensures { S.took sink.old sink.new (lines_from deliveries.now.encounter deliveries.now.journal sender) }
{
    let count = craft_count(deliveries.state().enc());
    for receiver in 0..count {
        put_link(deliveries, sender, receiver, sink);
    }
}

fn put_links<S: LineSink>(deliveries: &Deliveries, sink: &mut S)
    ensures { S.took sink.old sink.new (all_link_lines deliveries.now.encounter deliveries.now.journal) }
{
    let count = craft_count(deliveries.state().enc());
    for sender in 0..count {
        put_from(deliveries, sender, sink);
    }
}

// ---- the replies that are missed

fn missed_head(own: Address, target: Address) -> Line
    ensures value { result ≡ missed_head own target }
    ensures short { length result ≤ 27 }
{
    let mut line = Line::new();
    line.text("  by ");
    line.address(own.value());
    line.text(" from ");
    line.address(target.value());
    line.text(" in ");
    line
}

fn missed_line(own: Address, target: Address, cycles: &Numbers) -> Line
    ensures { result ≡ missed_text own target cycles.now }
{
    let mut line = missed_head(own, target);
    add_rows(&mut line, cycles);
    line.text("\n");
    line
}

// Puts the line of two aircraft, where one misses a reply of the other one.
fn put_missed<S: LineSink>(encounter: &Encounter, own: u8, target: u8, sink: &mut S)
    requires own { own < length encounter.now.crafts }
    requires target { target < length encounter.now.crafts }
    ensures { S.took sink.old sink.new (missed_lines encounter.now own target) }
{
    let cycles = missed(encounter, own, target);
    if cycles.has_marks() {
        let crafts = encounter.crafts();
        let own = crafts[usize::from(own)].address;
        let target = crafts[usize::from(target)].address;
        sink.line(&missed_line(own, target, &cycles));
    }
}

// Puts those of one aircraft.
fn put_missed_by<S: LineSink>(encounter: &Encounter, own: u8, sink: &mut S)
    requires { own < length encounter.now.crafts }
    ensures { S.took sink.old sink.new (missed_by encounter.now own) }
{
    let count = craft_count(encounter);
    for target in 0..count {
        put_missed(encounter, own, target, sink);
    }
}

fn put_all_missed<S: LineSink>(encounter: &Encounter, sink: &mut S)
    ensures { S.took sink.old sink.new (all_missed_lines encounter.now) }
{
    let count = craft_count(encounter);
    for own in 0..count {
        put_missed_by(encounter, own, sink);
    }
}

fn put_replies<S: LineSink>(encounter: &Encounter, sink: &mut S)
    ensures { S.took sink.old sink.new (replies_lines encounter.now) }
{
    if has_misses(encounter) {
        sink.line(&fixed_line("REPLIES MISSED by plan\n"));
        put_all_missed(encounter, sink);
    }
}

// ---- the text

impl Text for Deliveries {
    ghost use Rattle.deliveries.specs.Text.{delivery_lines};

    ghost lines = { λ d. delivery_lines d.encounter d.journal };

    fn put<S: LineSink>(&self, sink: &mut S) {
        sink.line(&fixed_line("\n"));
        sink.line(&counts_line(self));
        put_links(self, sink);
        put_replies(self.state().enc(), sink);
    }
}

/// Writes the end of a summary: an empty line, how many messages were sent and befallen, the pairs of aircraft with the
/// numbers of the messages that something befell, and the replies that the plan makes missed. It takes no memory.
///
/// `Failed` comes only where the sink's count of faults rose; what was written then is a front of the text.
pub fn write<K: Sink>(deliveries: &Deliveries, sink: &mut K) -> Result<(), Failed>
    ensures { Puts (K.written sink.old) (K.written sink.new) (K.faults sink.old) (K.faults sink.new) (deliveries_text deliveries.now.encounter deliveries.now.journal) result }
{
    write_text(deliveries, sink)
}
