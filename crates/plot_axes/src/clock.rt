// Times of day.
ghost use Rattle.std.specs.Prelude.{◌≡◌, ◌≤◌, ◌<◌, ◌+◌, ◌++◌, length};
ghost use Rattle.plot_axes.specs.Clock.{clock_text, pair};

use acas_text::Line;

// A digit of a number.
fn digit(value: u32) -> u8
    requires { value < 10 }
    ensures { result ≡ 48 + value }
{
    b'0' + value as u8
}

// Adds two digits.
fn add_pair(line: &mut Line, value: u32)
    requires { length line.old ≤ 100 }
    ensures added { line.new ≡ line.old ++ pair value }
    ensures longer { length line.new ≡ length line.old + 2 }
{
    line.byte(digit(value / 10 % 10));
    line.byte(digit(value % 10));
}

/// A second of the day as hh:mm:ss.
#[tactic(auto, unfolding(crate::specs::Clock::clock_text))]
pub fn clock_text(second: u32) -> Line
    ensures text { result ≡ clock_text second }
    ensures short { length result ≤ 8 }
{
    let mut line = Line::new();
    add_pair(&mut line, second / 3_600);
    line.text(":");
    add_pair(&mut line, second / 60 % 60);
    line.text(":");
    add_pair(&mut line, second % 60);
    line
}
