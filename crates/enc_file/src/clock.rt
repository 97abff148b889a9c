// Times of day, as fields tell them.
ghost use Rattle.std.specs.Prelude.{◌≡◌, ◌≤◌, ◌<◌, ◌-◌, get_or, IfSome};
ghost use Rattle.enc_file.specs.Clock.{clock_in, pair_at, told};
ghost use Rattle.plot_axes.specs.Clock.{clock_text};

use plot_axes::clock_text;

// The seconds of a day.
const DAY: u32 = 86_400;

// The value of a digit at a place.
fn digit_at(bytes: &[u8], place: usize) -> u32
    ensures value { result ≡ get_or bytes.now place 0 - 48 }
    ensures few { result ≤ 207 }
{
    match bytes.get(place) {
        Some(byte) => u32::from(byte.saturating_sub(b'0')),
        None => 0,
    }
}

// The number that two digits tell.
fn pair_at(bytes: &[u8], place: usize) -> u32
    requires { place ≤ 6 }
    ensures value { result ≡ pair_at bytes.now place }
    ensures few { result ≤ 2277 }
{
    10 * digit_at(bytes, place) + digit_at(bytes, place + 1)
}

fn told(bytes: &[u8]) -> u32
    ensures { result ≡ told bytes.now }
{
    3_600 * pair_at(bytes, 0) + 60 * pair_at(bytes, 3) + pair_at(bytes, 6)
}

/// The second of the day that a text of the form HH:MM:SS tells.
#[tactic(auto, unfolding(crate::specs::Clock::clock_in))]
pub fn clock_in(bytes: &[u8]) -> Option<u32>
    ensures value { result ≡ clock_in bytes.now }
    ensures day { IfSome result (λ second. second < 86400) }
{
    let second = told(bytes);
    if second < DAY && clock_text(second).bytes() == bytes {
        return Some(second);
    }
    None
}
