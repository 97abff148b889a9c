// What the marks of the plan say.
ghost use Rattle.std.specs.Prelude.{◌≡◌, ◌≤◌, ◌<◌, ◌^◌, length};
ghost use Rattle.acas_text.specs.Hex.{hex};
ghost use Rattle.plan_panel.specs.Marks.{approach_text, length_text, moment_text};
ghost use Rattle.svg_text.specs.declared.drawing.TheConstants.{LABEL_BYTES};

use acas_base::Address;
use acas_text::Line;
use page_marks::add_words;

// The feet of a nautical mile.
const MILE: u32 = 6_076;

/// The text of an address.
pub(crate) fn address_text(address: Address) -> Line
    ensures text { result ≡ hex 6 address }
    ensures short { length result ≤ LABEL_BYTES }
{
    let mut line = Line::new();
    line.address(address.value());
    line
}

/// An aircraft in a cycle.
#[tactic(auto, unfolding(crate::specs::Marks::moment_text))]
pub(crate) fn moment_text(address: Address, cycle: u16) -> Line
    ensures text { result ≡ moment_text address cycle }
    ensures short { length result ≤ LABEL_BYTES }
{
    let mut line = Line::new();
    line.address(address.value());
    line.text(", cycle ");
    line.u16(cycle);
    line
}

/// When two aircraft are nearest.
#[tactic(auto, unfolding(crate::specs::Marks::approach_text))]
pub(crate) fn approach_text(one: Address, other: Address, when: &Line) -> Line
    requires { length when.now ≤ 16 }
    ensures text { result ≡ approach_text one other when.now }
    ensures short { length result ≤ LABEL_BYTES }
{
    let mut line = Line::new();
    line.text("closest approach: ");
    line.address(one.value());
    line.text(" and ");
    line.address(other.value());
    line.text(", ");
    add_words(&mut line, when);
    line
}

/// A length in nautical miles.
#[tactic(auto, unfolding(crate::specs::Marks::length_text))]
pub(crate) fn length_text(feet: u32) -> Line
    requires { feet < 2 ^ 24 }
    ensures text { result ≡ length_text feet }
    ensures short { length result ≤ LABEL_BYTES }
{
    let mut line = Line::new();
    if feet < MILE {
        line.text("0.");
        line.u32(100 * feet / MILE);
    } else {
        line.u32(feet / MILE);
    }
    line.text(" NM");
    line
}
