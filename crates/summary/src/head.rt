// The head of the page.
ghost use Rattle.std.specs.Prelude.{◌≡◌, ◌+◌, ◌-◌, ◌<◌, ◌≤◌, ◌^◌, length, nat_lt};
ghost use Rattle.air_journal.specs.EntryRefs.{entry_of};
ghost use Rattle.summary.specs.Head.{count_of, crafts_line, entries_in, entries_line, is_same_kind, nothing_counted, run_line, with_entry};
ghost use Rattle.summary.specs.Lines.{quiet};

use acas_base::{CraftSpec, Kind};
use acas_lines::{LineSink, Text, fixed_line};
use acas_text::Line;
use air_journal::{AirState, EntryRef};

/// How many entries there are of each kind.
#[derive(Clone, Copy)]
pub(crate) struct EntryCounts {
    pub commits: u32,
    pub sends: u32,
    pub takes: u32,
}

// ---- counts

fn is_same_kind(kind: Kind, other: Kind) -> bool
    ensures { result ≡ is_same_kind kind other }
{
    match kind {
        Kind::Ra => matches!(other, Kind::Ra),
        Kind::Ta => matches!(other, Kind::Ta),
        Kind::Xpdr => matches!(other, Kind::Xpdr),
    }
}

// How many aircraft there are of a kind.
fn count_of(kind: Kind, crafts: &[CraftSpec]) -> usize
    requires { length crafts.now ≤ 16 }
    ensures value { result ≡ count_of kind crafts.now }
    ensures few { result ≤ 16 }
{
    crafts
        .iter()
        .filter(|craft| is_same_kind(kind, craft.kind))
        .count()
}

fn nothing_counted() -> EntryCounts
    ensures { result ≡ nothing_counted }
{
    EntryCounts {
        commits: 0,
        sends: 0,
        takes: 0,
    }
}

impl EntryCounts {
    // With one entry more.
    fn with(self, entry: &EntryRef<'_>) -> EntryCounts
        requires { self.commits + self.sends + self.takes < 2 ^ 32 - 1 }
        ensures { result ≡ with_entry self (entry_of entry.now) }
    {
        match *entry {
            EntryRef::Commit { .. } => EntryCounts {
                commits: self.commits + 1,
                sends: self.sends,
                takes: self.takes,
            },
            EntryRef::Send { .. } => EntryCounts {
                commits: self.commits,
                sends: self.sends + 1,
                takes: self.takes,
            },
            EntryRef::Take { .. } => EntryCounts {
                commits: self.commits,
                sends: self.sends,
                takes: self.takes + 1,
            },
        }
    }
}

// How many entries there are of each kind.
fn entries_in(state: &AirState) -> EntryCounts
    ensures { result ≡ entries_in state.now.journal }
{
    state.legal_law();
    let mut counts = nothing_counted();
    for at in 0..state.count() {
        let Some(entry) = state.entry_ref(at) else {
            return counts;
        };
        counts = counts.with(&entry);
    }
    counts
}

// ---- the text

// The line that says that there is neither traffic nor advice.
pub(crate) fn quiet_line() -> Line
    ensures { result ≡ quiet }
{
    fixed_line("no traffic, no advice\n")
}

// How many aircraft there are, and how many of each kind.
fn crafts_line(crafts: &[CraftSpec]) -> Line
    requires { length crafts.now ≤ 16 }
    ensures { result ≡ crafts_line crafts.now }
{
    let mut line = Line::new();
    line.text("aircraft ");
    line.u32(crafts.len() as u32);
    line.text(": RA ");
    line.u32(count_of(Kind::Ra, crafts) as u32);
    line.text(", TA ");
    line.u32(count_of(Kind::Ta, crafts) as u32);
    line.text(", XPDR ");
    line.u32(count_of(Kind::Xpdr, crafts) as u32);
    line.text("\n");
    line
}

fn run_line(cycles: u16, elevation: i32) -> Line
    ensures { result ≡ run_line cycles elevation }
{
    let mut line = Line::new();
    line.text("cycles ");
    line.u16(cycles);
    line.text(", ground ");
    line.i32(elevation);
    line.text(" ft\n");
    line
}

fn entries_line(count: u32, entries: &EntryCounts) -> Line
    ensures { result ≡ entries_line count entries.now }
{
    let mut line = Line::new();
    line.text("entries ");
    line.u32(count);
    line.text(": commits ");
    line.u32(entries.commits);
    line.text(", sends ");
    line.u32(entries.sends);
    line.text(", takes ");
    line.u32(entries.takes);
    line.text("\n");
    line
}

/// What the page begins with.
#[derive(Drop)]
pub(crate) struct Head<'a>(pub &'a AirState);

impl Text for Head<'_> {
    ghost use Rattle.summary.specs.Head.{head_lines};

    ghost lines = { λ h. head_lines h.0.now.encounter h.0.now.journal };

    fn put<S: LineSink>(&self, sink: &mut S) {
        self.0.legal_law();
        let encounter = self.0.enc();
        sink.line(&fixed_line("summary,1\n"));
        sink.line(&crafts_line(encounter.crafts()));
        sink.line(&run_line(encounter.cycles(), encounter.ground()));
        sink.line(&entries_line(self.0.count(), &entries_in(self.0)));
    }
}

fn is_alone(crafts: usize) -> bool
    ensures { result ≡ nat_lt crafts 2 }
{
    crafts < 2
}

/// That one aircraft alone meets nobody.
#[derive(Drop)]
pub(crate) struct Alone(pub usize);

impl Text for Alone {
    ghost use Rattle.summary.specs.Head.{alone_lines};

    ghost lines = { λ a. alone_lines a.0 };

    fn put<S: LineSink>(&self, sink: &mut S) {
        if is_alone(self.0) {
            sink.line(&fixed_line("\n"));
            sink.line(&quiet_line());
        }
    }
}
