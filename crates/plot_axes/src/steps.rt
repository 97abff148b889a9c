// Steps between the ticks of an axis.
ghost use Rattle.std.specs.Prelude.{◌≡◌, ◌*◌, ◌<◌, ◌^◌, nat_le};
ghost use Rattle.plot_axes.specs.Steps.{step_for};

// Whether so many steps reach over a span.
fn reaches(span: u32, most: u32, step: u32) -> bool
    requires { most < 2 ^ 8 }
    ensures { result ≡ nat_le span (most * step) }
{
    u64::from(span) <= u64::from(most) * u64::from(step)
}

/// The first of these steps of which `most` reach over a span. Where none does, it is the last one. `step_law` says that
/// it is the least step that fits.
pub fn least_step(span: u32, most: u32, steps: &[u32]) -> u32
    requires few { most < 2 ^ 8 }
    ensures { result ≡ step_for span most 0 steps.now }
{
    let mut last = 0;
    for step in steps {
        if reaches(span, most, *step) {
            return *step;
        }
        last = *step;
    }
    last
}
