// The lines of a word.
ghost use Rattle.std.specs.Prelude.{◌≡◌, ◌≤◌, codes, length};
ghost use Rattle.acas_io.specs.Stream.{Puts};
ghost use Rattle.acas_text.specs.Hex.{hex};
ghost use Rattle.res_message.specs.Words.{field};
ghost use Rattle.word_text.specs.Lines.{block_lines, complement_text, field_line, is_block, lines_as_block, lines_as_message, mark_line, message_lines, word_text};

use acas_base::{Address, ResMsg, Vrc};
use acas_io::{Failed, Sink};
use acas_lines::{LineSink, Text, count_line, fixed_line, write_text};
use acas_text::Line;
use ra_block::RaBlock;

// Bit 41.
const BLOCK: u64 = 1 << 47;

// Bit 64, the lowest one of the parity.
const PARITY: u64 = 1 << 24;

fn is_block(word: u64) -> bool
    ensures { result ≡ is_block word }
{
    word / BLOCK % 2 == 1
}

fn mark_line(name: &str, holds: bool) -> Line
    requires { length name.now ≤ 20 }
    ensures { result ≡ mark_line name.now holds }
{
    count_line(name, u32::from(holds))
}

fn address_line(name: &str, address: Address) -> Line
    requires { length name.now ≤ 20 }
    ensures { result ≡ field_line name.now (hex 6 address) }
{
    let mut line = fixed_line(name);
    line.address_field(address.value());
    line.text("\n");
    line
}

fn complement_text(complement: Vrc) -> &'static str
    ensures text { result.now ≡ complement_text complement }
    ensures short { length result.now ≤ 7 }
{
    match complement {
        Vrc::Nil => "nothing",
        Vrc::NotBelow => "below",
        Vrc::NotAbove => "above",
    }
}

fn complement_line(name: &str, complement: Vrc) -> Line
    requires { length name.now ≤ 20 }
    ensures { result ≡ field_line name.now (complement_text complement) }
{
    let mut line = fixed_line(name);
    line.text_field(complement_text(complement));
    line.text("\n");
    line
}

fn parity_line(word: u64) -> Line
    ensures { result ≡ field_line (codes "parity") (hex 1 (field 61 64 word)) }
{
    let mut line = fixed_line("parity");
    line.hex_field(word / PARITY % 16, 1);
    line.text("\n");
    line
}

fn block_lines(block: &RaBlock) -> [Line; 10]
    ensures { result ≡ block_lines block.now }
{
    [
        mark_line("corrective", block.corrective),
        mark_line("down", block.downward),
        mark_line("increase", block.increased),
        mark_line("reversal", block.reversal),
        mark_line("crossing", block.crossing),
        mark_line("positive", block.positive),
        mark_line("below", block.below),
        mark_line("above", block.above),
        mark_line("ended", block.ended),
        address_line("threat", block.threat),
    ]
}

fn message_lines(word: u64, message: &ResMsg) -> [Line; 5]
    ensures { result ≡ message_lines word message.now }
{
    [
        mark_line("many_threats", message.many),
        complement_line("cancels", message.cancel),
        complement_line("sets", message.vrc),
        parity_line(word),
        address_line("sender", message.sender),
    ]
}

// Puts lines, in order.
fn put_lines<S: LineSink>(lines: &[Line], sink: &mut S)
    ensures { S.took sink.old sink.new lines.now }
{
    for line in lines {
        sink.line(line);
    }
}

// Puts what a word says as a block.
fn put_as_block<S: LineSink>(word: u64, sink: &mut S)
    ensures { S.took sink.old sink.new (lines_as_block word) }
{
    match ra_block::decode(word) {
        Some(block) => put_lines(&block_lines(&block), sink),
        None => sink.line(&fixed_line("none\n")),
    }
}

// Puts what a word says as a message.
fn put_as_message<S: LineSink>(word: u64, sink: &mut S)
    ensures { S.took sink.old sink.new (lines_as_message word) }
{
    match res_message::decode(word) {
        Some(message) => put_lines(&message_lines(word, &message), sink),
        None => sink.line(&fixed_line("none\n")),
    }
}

/// What a word says: how it was read, and its fields, or that it has none.
#[derive(Drop)]
pub struct WordText(pub u64);

impl Text for WordText {
    ghost use Rattle.word_text.specs.Lines.{word_lines};

    ghost lines = { λ text. word_lines text.0 };

    fn put<S: LineSink>(&self, sink: &mut S) {
        if is_block(self.0) {
            sink.line(&fixed_line("word,block\n"));
            put_as_block(self.0, sink);
        } else {
            sink.line(&fixed_line("word,message\n"));
            put_as_message(self.0, sink);
        }
    }
}

/// Writes what a word says. It takes no memory.
///
/// `Failed` comes only where the sink's count of faults rose; what was written then is a front of the text.
pub fn write<K: Sink>(word: u64, sink: &mut K) -> Result<(), Failed>
    ensures { Puts (K.written sink.old) (K.written sink.new) (K.faults sink.old) (K.faults sink.new) (word_text word) result }
{
    write_text(&WordText(word), sink)
}
