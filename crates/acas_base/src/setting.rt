// How an encounter is run.
use crate::{Gains, Label};

/// The rules by which each aircraft advises (this project's): those of profile 1, which are few and can be checked by
/// hand, or those of profile 2, which has what version 7.1 of TCAS II has, as far as public sources tell.
#[derive(Clone, Copy, Debug, PartialEq, Eq)]
pub enum Profile {
    One,
    Two,
}

/// How an encounter is run, and what it is called: the version of its text's format; the profile; how many cycles it
/// has; the elevation of the ground, in ft; the gains of the range tracks and of the altitude tracks; its name, if it
/// has one; and the time of day in cycle 1, in seconds after midnight, if it is given.
#[derive(Clone, Copy)]
pub struct Setting {
    pub version: u8,
    pub profile: Profile,
    pub cycles: u16,
    pub elevation: i32,
    pub range: Gains,
    pub altitude: Gains,
    pub name: Option<Label>,
    pub clock: Option<u32>,
}
