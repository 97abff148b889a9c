// Expected values: by hand from the definitions of the axes.
ghost use Rattle.std.specs.Prelude.{◌≡◌, ◌<◌, ◌≤◌};
ghost use Rattle.std.specs.Option.{ForSome};

use plot_axes::{Scale, TimeAxis, least_step};

fn axis(cycles: u16, start: Option<u32>) -> TimeAxis
    requires some { 1 ≤ cycles }
    requires few { cycles ≤ 600 }
    requires day { ForSome start (λ second. second < 86400) }
    ensures cycles { result.cycles ≡ cycles }
    ensures start { result.start ≡ start }
{
    TimeAxis { cycles, start }
}

// The place of the first cycle of 31 that begins elsewhere.
fn first_elsewhere(run: TimeAxis, rows: &[(u16, u32)]) -> Option<usize>
    requires { run.cycles ≡ 31 }
{
    for place in 0..rows.len() {
        let (cycle, x) = rows[place];
        if cycle == 0 || cycle > 32 || run.begin(cycle) != x {
            return Some(place);
        }
    }
    None
}

const BEGUN: &[(u16, u32)] = &[(1, 2_000), (2, 2_509), (31, 17_290), (32, 17_800)];

// 15,800 units are 509 and 21/31 for each of 31 cycles.
#[test]
fn places_of_cycles(rt: HostRuntime) {
    assert_eq!(rt; first_elsewhere(axis(31, None), BEGUN), None);
    assert_eq!(rt; axis(31, None).middle(31), 17_545);
    assert_eq!(rt; axis(1, None).middle(1), 9_900);
}

// The place of the first number of cycles, without a clock, whose ticks have another step.
fn first_other_step(rows: &[(u16, u32)]) -> Option<usize> {
    for place in 0..rows.len() {
        let (cycles, step) = rows[place];
        if cycles == 0 || cycles > 600 || axis(cycles, None).step() != step {
            return Some(place);
        }
    }
    None
}

// The same of a span, where at most seven steps of 5 or of 10 hold.
fn first_other_least(rows: &[(u32, u32)]) -> Option<usize> {
    for place in 0..rows.len() {
        let (span, step) = rows[place];
        if least_step(span, 7, &[5, 10]) != step {
            return Some(place);
        }
    }
    None
}

const STEPS: &[(u16, u32)] = &[(14, 1), (28, 2), (29, 5), (600, 50)];

const LEAST: &[(u32, u32)] = &[(71, 10), (70, 10), (35, 5)];

// Of 28 cycles 14 steps of 2 hold; of 29 they don't, and 14 of 5 do. Twelve cycles with a clock take steps of 2.
#[test]
fn steps_of_ticks(rt: HostRuntime) {
    assert_eq!(rt; first_other_step(STEPS), None);
    assert_eq!(rt; axis(12, Some(0)).step(), 2);
    assert_eq!(rt; first_other_least(LEAST), None);
}

// A cycle, the second of the day, whether it is a tick, and its label.
type Row = (u16, u32, bool, &'static [u8]);

fn is_row(run: TimeAxis, row: &Row) -> bool {
    let (cycle, name, is_tick, label) = *row;
    if cycle == 0 || cycle > 600 {
        return false;
    }
    run.name(cycle) == name && run.is_tick(cycle) == is_tick && run.label(cycle).bytes() == label
}

// The place of the first row with something else.
fn first_other(run: TimeAxis, rows: &[Row]) -> Option<usize> {
    for place in 0..rows.len() {
        if !is_row(run, &rows[place]) {
            return Some(place);
        }
    }
    None
}

// The run begins at 23:59:57, so cycle 4 is midnight. Each fifth second is a tick.
const PAST_MIDNIGHT: &[Row] = &[
    (3, 86_399, false, b"23:59:59"),
    (4, 0, true, b"00:00:00"),
    (5, 1, false, b"00:00:01"),
    (9, 5, true, b"00:00:05"),
];

// Without a clock a cycle has its number.
const UNTIMED: &[Row] = &[(5, 5, true, b"5")];

const LONGEST: &[Row] = &[(600, 600, true, b"600")];

#[test]
fn clock_past_midnight(rt: HostRuntime) {
    let run = axis(50, Some(86_397));
    assert_eq!(rt; run.step(), 5);
    assert_eq!(rt; first_other(run, PAST_MIDNIGHT), None);
    assert_eq!(rt; first_other(axis(50, None), UNTIMED), None);
    assert_eq!(rt; first_other(axis(600, None), LONGEST), None);
}

// 6,400 units for 1,000 ft: 6.4 for each.
#[test]
fn places_along_an_axis(rt: HostRuntime) {
    let feet = Scale {
        low: -60_000,
        high: 0,
        length: 6_400,
    };
    assert_eq!(rt; feet.along(-60_000), 0);
    assert_eq!(rt; feet.along(-59_940), 6);
    assert_eq!(rt; feet.along(0), 6_400);
}
