// The pages that the program writes about itself.
ghost use Rattle.std.specs.Prelude.{IsTrue};
ghost use Rattle.acas_top.specs.Pages.{are_short, help_lines, page_lines, texts_of};

use crate::words::Page;
use acas_lines::{LineSink, fixed_line};

/// What `--help` writes first. The page is in parts, since a long table takes minutes to prove.
pub(crate) const USAGE: [&str; 4] = [
    "acas plays encounters between aircraft with TCAS II version 7.1.\n",
    "\n",
    "usage: acas WORD [ARGUMENTS] < INPUT > OUTPUT\n",
    "\n",
];

/// Its part on the words that read encounters.
pub(crate) const OF_ENCOUNTERS: [&str; 14] = [
    "These words read an encounter from standard input:\n",
    "  serial     Writes the recording of the serial run, which is always the same.\n",
    "  play       The same in threads, in an order that may differ from run to run.\n",
    "  sum        Does both. Writes counts of both runs.\n",
    "  tracks     Reads recorded tracks. Writes the encounter that flies along them.\n",
    "  fly ADDRESS ..  Writes the encounter in which these follow their advice.\n",
    "  vary alt|x|y|late ADDRESS FIRST COUNT STEP, vary lose, vary swap\n",
    "             Writes what its run comes to with one thing changed at a time.\n",
    "  orders     Writes what each aircraft can advise, in any order of the steps.\n",
    "  losses     The same, whatever messages are lost besides.\n",
    "  instance orders|losses ADDRESS CYCLE WORD, or .. ADDRESS ADDRESS CYCLES\n",
    "             Writes the recording of such a run; or never, or open.\n",
    "  many       Reads encounters, one after the other. Writes what each comes to.\n",
    "\n",
];

/// Its part on the words that read recordings.
pub(crate) const OF_RECORDINGS: [&str; 15] = [
    "These words read a recording from standard input:\n",
    "  audit      Writes legal,ENTRIES, or which line is the first wrong one and why.\n",
    "  places     Writes where each aircraft was, and its advice, as a table (CSV).\n",
    "  messages   Writes each message, and what became of it, as a table (CSV).\n",
    "  reports    Writes the RA report blocks that aircraft would have downlinked.\n",
    "  response   Writes how far apart altitudes would be, had each flown as advised.\n",
    "  summary    Writes a page: who met whom, who was advised what, what was lost.\n",
    "  watch      Writes when two aircraft had advisories in one sense, and why.\n",
    "  why        Writes why each aircraft had each advisory, or had none.\n",
    "  picture [hh:mm:ss] [ADDRESS=NAME ..] [CYCLE=TEXT ..]\n",
    "             Draws the run as SVG, with a clock, names and marks if given.\n",
    "  explain    Reads this, an encounter, or tracks. Writes what is wrong with it.\n",
    "  compare    Reads two recordings, one after the other. Writes what differs.\n",
    "  resume     Reads a recording that was cut, and writes the whole recording.\n",
    "\n",
];

/// Its part on the words that read nothing.
pub(crate) const OF_NOTHING: [&str; 9] = [
    "These words read nothing:\n",
    "  gen NUMBER CRAFTS CYCLES [2]  Writes the encounter that is made from NUMBER\n",
    "             (0 to 4294967295), CRAFTS 1 to 16, CYCLES 1 to 600; 2: profile 2.\n",
    "  sweep NUMBER COUNT CRAFTS CYCLES [2]  Plays those of COUNT numbers (1 to\n",
    "             4096) from NUMBER, CRAFTS 1 to 4, CYCLES 1 to 120. Writes counts.\n",
    "  decode WORD  Writes what 14 digits say: a message, or an RA report block.\n",
    "  --help     Writes this page. So do -h and help.\n",
    "  --version  Writes the versions of the program and of its formats.\n",
    "\n",
];

/// Its part on how a run ends.
pub(crate) const STATUSES: [&str; 12] = [
    "Exit status, and what standard output has then:\n",
    "  0  Done. The whole output.\n",
    "  2  The words are no command. Nothing was read or written.\n",
    "  3  The words that read an encounter, explain: the input is none. A line,\n",
    "     refused,RECORD,CODE, or unknown, leaves, variants, pieces, bound.\n",
    "  4  The input is no recording of a legal and complete run; for resume, no\n",
    "     beginning of one. wrong,LINE,REASON or wrong,2,1,CODE; explain: two lines.\n",
    "  5  A read failed. Nothing.\n",
    "  6  A write failed. The beginning of the output.\n",
    "  7  Too long: over 16777216 bytes of an encounter, else over 67108864. Nothing.\n",
    "  8  Memory was wanting. Nothing.\n",
    "\n",
];

/// What it ends with.
pub(crate) const EXAMPLE: [&str; 6] = [
    "Example:\n",
    "  acas serial < examples/same-altitude.enc > recording\n",
    "  acas audit < recording\n",
    "\n",
    "README.md says how to begin. docs/FORMATS.md describes every text, docs/RULES.md\n",
    "has the rules, and examples/ has encounters with a page on each.\n",
];

/// What `--version` writes: the program's version, the formats of encounters and recordings that it reads and writes,
/// and the formats of tracks that it reads.
pub(crate) const VERSION: [&str; 4] = [
    "acas 1.3.0\n",
    "encounter 1,2,3\n",
    "recording 1\n",
    "tracks 1,2\n",
];

// Puts lines of fixed text, in order.
fn put_lines<S: LineSink>(lines: &[&str], sink: &mut S)
    requires { IsTrue (are_short lines.now) }
    ensures { S.took sink.old sink.new (texts_of lines.now) }
{
    for line in lines {
        sink.line(&fixed_line(line));
    }
}

// Puts the lines of `--help`.
fn put_help<S: LineSink>(sink: &mut S)
    ensures { S.took sink.old sink.new help_lines }
{
    put_lines(&USAGE, sink);
    put_lines(&OF_ENCOUNTERS, sink);
    put_lines(&OF_RECORDINGS, sink);
    put_lines(&OF_NOTHING, sink);
    put_lines(&STATUSES, sink);
    put_lines(&EXAMPLE, sink);
}

/// Puts the lines of a page.
pub(crate) fn put_page<S: LineSink>(page: Page, sink: &mut S)
    ensures { S.took sink.old sink.new (page_lines page) }
{
    match page {
        Page::Help => put_help(sink),
        Page::Version => put_lines(&VERSION, sink),
    }
}
