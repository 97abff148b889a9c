// What a job counts, and the sums over many.
ghost use Rattle.std.specs.Prelude.{◌≡◌};
ghost use Rattle.sweep.specs.Totals.{Fit, total};

/// The counts of a run: its commits, its messages sent, its copies taken, and the lines of its report.
#[derive(Clone, Copy)]
pub struct Counts {
    pub commits: u32,
    pub sends: u32,
    pub takes: u32,
    pub lines: u32,
}

/// The sums over a list. They have to fit 32 bits.
pub fn total(list: &[Counts]) -> Counts
    requires { Fit (total list.now) }
    ensures { result ≡ total list.now }
{
    let mut sums = Counts {
        commits: 0,
        sends: 0,
        takes: 0,
        lines: 0,
    };
    for at in 0..list.len() {
        let counts = list[at];
        sums.commits += counts.commits;
        sums.sends += counts.sends;
        sums.takes += counts.takes;
        sums.lines += counts.lines;
    }
    sums
}
