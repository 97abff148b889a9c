// Sensitivity levels.

/// The thresholds of a traffic or a resolution advisory (FAA, Introduction to TCAS II v7.1, table of
/// sensitivity levels): `tau` in s, `dmod` and `zthr` in 1/1024 ft.
#[derive(Clone, Copy, Debug, PartialEq, Eq)]
pub struct Row {
    pub tau: i64,
    pub dmod: i64,
    pub zthr: i64,
}

/// A sensitivity level: its number, its thresholds, and `alim`, the least vertical separation to aim for, in 1/1024 ft.
///
/// Three more numbers are read in profile 2 alone. `slow_tau` is the time threshold of the altitude test of a resolution
/// advisory where own aircraft is level, or moves the other's way and slower, in s. `increase_tau` is the time to the
/// closest approach at which an advisory may increase, in s. `product` is the product of range and range rate above
/// which a range that grows opens, in ft2/s.
///
/// Level 2 has no resolution advisories. There `alim`, `slow_tau` and `increase_tau` are 0.
#[derive(Clone, Copy)]
pub struct Level {
    pub sl: u8,
    pub ta: Row,
    pub ra: Option<Row>,
    pub alim: i64,
    pub slow_tau: i64,
    pub increase_tau: i64,
    pub product: i64,
}
