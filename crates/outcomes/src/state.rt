// The sizes of a state.
ghost use Rattle.std.specs.Prelude.{◌≡◌, ◌≤◌, length};

use air_journal::AirState;

/// How many aircraft there are.
pub(crate) fn crafts(state: &AirState) -> u8
    ensures value { result ≡ length state.now.encounter.crafts }
    ensures some { 1 ≤ result }
    ensures few { result ≤ 16 }
{
    state.legal_law();
    state.enc().crafts().len() as u8
}

/// How many cycles there are.
pub(crate) fn cycles(state: &AirState) -> u16
    ensures value { result ≡ state.now.encounter.cycles }
    ensures some { 1 ≤ result }
    ensures few { result ≤ 600 }
{
    state.legal_law();
    state.enc().cycles()
}
