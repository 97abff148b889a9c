// The table of messages.
ghost use Rattle.std.specs.Prelude.{◌≡◌, ◌∷◌, ◌+◌, ◌++◌, ◌≤◌, ◌<◌, IfOk, Some, length, slice_get};
ghost use Rattle.std.specs.List.{join_with_byte};
ghost use Rattle.acas_base.specs.Fates.{copies_of};
ghost use Rattle.acas_io.specs.Stream.{Puts};
ghost use Rattle.acas_text.specs.declared.line.TheConstants.{LINE_BYTES};
ghost use Rattle.air_journal.specs.EntryRefs.{entry_of};
ghost use Rattle.air_rules.specs.Journal.{Begins, sent_at};
ghost use Rattle.air_rules.specs.Takes.{complement_read};
ghost use Rattle.journal_tables.specs.Kept.{AreTakes};
ghost use Rattle.journal_tables.specs.Messages.{cancel_read, copy_line, lines_of_entry, lines_of_message, lost_line, message_fields, message_names, message_of, messages_text, sent_lines, take_fields, taken_fields};
ghost use Rattle.rec_text.specs.Entries.{outcome};
ghost use Rattle.res_message.specs.Words.{read_word};

use crate::takes::{COPIES, CopyTake, MessageCopy, Way, take_at, takes_of};
use acas_base::{Address, CopyPlan, Fate, Vrc};
use acas_io::{Failed, Sink};
use acas_lines::{LineSink, Text, fixed_line, write_text};
use acas_text::Line;
use advisory_report::complement_text;
use air_journal::{AirState, EntryRef};
use journal_reader::Reader;
use res_message::decode;
use std::alloc::{AllocError, Global};
use std::marker::Model;

/// What is told of a message: who sent it to whom, its number, the cycle of the sender's last commit, the position of
/// the send, and the complements that it sets and cancels.
#[derive(Clone, Copy)]
pub(crate) struct Message {
    pub sender: Address,
    pub receiver: Address,
    pub number: u16,
    pub cycle: u16,
    pub at: u32,
    pub sets: Vrc,
    pub cancels: Vrc,
}

// The line with the names of the columns.
#[tactic(auto, unfolding(crate::specs::Messages::message_names))]
fn message_names() -> Line
    ensures { result ≡ message_names }
{
    fixed_line(
        "sender,receiver,number,sent_cycle,sent_at,sets,cancels,copy,hold,taken_at,taken_cycle,result,changed\n",
    )
}

fn outcome(good: bool) -> &'static str
    ensures text { result.now ≡ outcome good }
    ensures short { length result.now ≤ 1 }
{
    if good { "g" } else { "b" }
}

// A line with what is told of a message, which goes on.
fn message_part(message: &Message) -> Line
    ensures part { result ≡ join_with_byte 44 (message_fields message.now) }
    ensures short { length result ≤ 60 }
{
    let mut line = Line::new();
    line.address(message.sender.value());
    line.address_field(message.receiver.value());
    line.u16_field(message.number);
    line.u16_field(message.cycle);
    line.u32_field(message.at);
    line.text_field(complement_text(message.sets));
    line.text_field(complement_text(message.cancels));
    line
}

// The line of a message without copies.
fn lost_line(message: &Message) -> Line
    ensures { result ≡ lost_line message.now }
{
    let mut line = message_part(message);
    line.text(",,,,,,\n");
    line
}

// Adds a comma, and what a take says.
fn add_take(line: &mut Line, take: &CopyTake)
    requires { length line.old + 30 ≤ LINE_BYTES }
    ensures added { line.new ≡ line.old ++ 44 ∷ join_with_byte 44 (taken_fields take.now) }
    ensures short { length line.new ≤ length line.old + 30 }
{
    line.u32_field(take.at);
    line.u16_field(take.cycle);
    line.text_field(outcome(take.good));
    line.mark_field(take.changed);
}

// The same, where there is a take.
fn add_take_if_any(line: &mut Line, take: Option<CopyTake>)
    requires { length line.old + 30 ≤ LINE_BYTES }
    ensures added { line.new ≡ line.old ++ 44 ∷ join_with_byte 44 (take_fields take) }
    ensures short { length line.new ≤ length line.old + 30 }
{
    match take {
        Some(take) => add_take(line, &take),
        None => line.text(",,,,"),
    }
}

// The line of a copy.
fn copy_line(message: &Message, copy: u8, plan: CopyPlan, take: Option<CopyTake>) -> Line
    ensures { result ≡ copy_line message.now copy plan take }
{
    let mut line = message_part(message);
    line.u16_field(u16::from(copy));
    line.u16_field(u16::from(plan.hold));
    add_take_if_any(&mut line, take);
    line.text("\n");
    line
}

// What becomes of a copy, where the message has it.
fn plan_of(fate: &Fate, copy: u8) -> Option<CopyPlan>
    ensures { result ≡ slice_get (copies_of fate.now) copy }
{
    if copy >= fate.copies {
        return None;
    }
    match copy {
        0 => Some(fate.first),
        1 => Some(fate.second),
        2 => Some(fate.third),
        _ => None,
    }
}

// The complement that a word sets.
fn set_by(word: u64) -> Vrc
    ensures { result ≡ complement_read (read_word word) }
{
    match decode(word) {
        Some(message) => message.vrc,
        None => Vrc::Nil,
    }
}

// The complement that a word cancels.
fn cancelled_by(word: u64) -> Vrc
    ensures { result ≡ cancel_read (read_word word) }
{
    match decode(word) {
        Some(message) => message.cancel,
        None => Vrc::Nil,
    }
}

// What is told of a message that is sent with the entry that comes next.
fn message_of(state: &AirState, reader: &Reader<'_>, way: Way, number: u16, word: u64) -> Message
    requires encounter { reader.now.encounter ≡ state.now.encounter }
    requires sender { way.sender < length state.now.encounter.crafts }
    requires receiver { way.receiver < length state.now.encounter.crafts }
    ensures { result ≡ message_of state.now.encounter reader.now.read (record { sender = way.sender; receiver = way.receiver; number = number; word = word }) }
{
    state.legal_law();
    let crafts = state.enc().crafts();
    Message {
        sender: crafts[usize::from(way.sender)].address,
        receiver: crafts[usize::from(way.receiver)].address,
        number,
        cycle: reader.commits(way.sender),
        at: reader.position(),
        sets: set_by(word),
        cancels: cancelled_by(word),
    }
}

// Puts the lines of a message that is sent with the entry that comes next.
fn put_message<S: LineSink>(
    state: &AirState,
    takes: &[Option<CopyTake>],
    reader: &Reader<'_>,
    way: Way,
    number: u16,
    word: u64,
    sink: &mut S,
)
    requires takes { AreTakes state.now state.now.journal takes.now }
    requires encounter { reader.now.encounter ≡ state.now.encounter }
    requires sender { way.sender < length state.now.encounter.crafts }
    requires receiver { way.receiver < length state.now.encounter.crafts }
    requires number { 1 ≤ number }
    requires sent { sent_at state.now.journal (length reader.now.read) ≡ Some (record { sender = way.sender; receiver = way.receiver; number = number; word = word }) }
    ensures { S.took sink.old sink.new (lines_of_message state.now.encounter state.now.journal reader.now.read (record { sender = way.sender; receiver = way.receiver; number = number; word = word })) }
{
    let message = message_of(state, reader, way, number, word);
    let fate = state.enc().fate(way.sender, way.receiver, number);
    if fate.copies == 0 {
        sink.line(&lost_line(&message));
        return;
    }
    for copy in 0..COPIES as u8 {
        if let Some(plan) = plan_of(&fate, copy) {
            let take = take_at(takes, MessageCopy { way, number, copy });
            sink.line(&copy_line(&message, copy, plan, take));
        }
    }
}

// Puts the lines of the message that the entry sends which comes next, where it sends one.
fn put_entry<S: LineSink>(
    state: &AirState,
    takes: &[Option<CopyTake>],
    reader: &Reader<'_>,
    entry: &EntryRef<'_>,
    sink: &mut S,
)
    requires takes { AreTakes state.now state.now.journal takes.now }
    requires encounter { reader.now.encounter ≡ state.now.encounter }
    requires next { Begins (entry_of entry.now ∷ reader.now.read) state.now.journal }
    ensures { S.took sink.old sink.new (lines_of_entry state.now.encounter state.now.journal reader.now.read (entry_of entry.now)) }
{
    state.legal_law();
    if let EntryRef::Send {
        own,
        target,
        number,
        word,
    } = *entry
    {
        let way = Way {
            sender: own,
            receiver: target,
        };
        put_message(state, takes, reader, way, number, word, sink);
    }
}

// Puts the lines of all messages.
fn put_sent<S: LineSink>(state: &AirState, takes: &[Option<CopyTake>], sink: &mut S)
    requires { AreTakes state.now state.now.journal takes.now }
    ensures { S.took sink.old sink.new (sent_lines state.now.encounter state.now.journal state.now.journal) }
{
    let mut reader = Reader::new(state);
    while let Some(entry) = reader.peek() {
        put_entry(state, takes, &reader, &entry, sink);
        reader.next();
    }
}

/// The table of messages of a state: the names of the columns, and a line for each copy and for each message without
/// copies, by the position of the send and then by the number of the copy:
/// `sender,receiver,number,sent_cycle,sent_at,sets,cancels,copy,hold,taken_at,taken_cycle,result,changed`. The cycles
/// are those of the last commit: of the sender before the send, and of the receiver before the take. The last column is
/// 1 where the complement in force on the receiver from the sender isn't the same after the take as before it.
///
/// A line tells takes that come later in the journal. So the takes of all copies are kept before the first line.
#[derive(Drop)]
pub struct Messages {
    state: AirState,
    takes: Vec<Option<CopyTake>>,
}

impl Model for Messages {
    ghost use Rattle.air_journal.specs.States.{State};
    ghost use Rattle.journal_tables.specs.Kept.{AreTakes};

    ghost Value = { State };

    ghost view = { λ m. m.state };

    ghost invariant = { λ m. AreTakes m.state m.state.journal m.takes.items };
}

impl Messages {
    /// The table of a state. It takes memory by the number of aircraft, and none by the number of entries. The error
    /// says that memory was wanting.
    pub fn new(alloc: Global, state: AirState) -> Result<Messages, AllocError>
        ensures { IfOk result (λ messages. messages ≡ state) }
    {
        let takes = takes_of(alloc, &state)?;
        Ok(Messages { state, takes })
    }
}

impl Text for Messages {
    ghost use Rattle.journal_tables.specs.Messages.{message_lines};

    ghost lines = { λ m. message_lines m.encounter m.journal };

    fn put<S: LineSink>(&self, sink: &mut S) {
        sink.line(&message_names());
        put_sent(&self.state, self.takes.as_slice(), sink);
    }
}

/// Writes a table of messages. It takes no memory.
///
/// `Failed` comes only where the sink's count of faults rose; what was written then is a front of the text.
pub fn write_messages<K: Sink>(messages: &Messages, sink: &mut K) -> Result<(), Failed>
    ensures { Puts (K.written sink.old) (K.written sink.new) (K.faults sink.old) (K.faults sink.new) (messages_text messages.now.encounter messages.now.journal) result }
{
    write_text(messages, sink)
}
