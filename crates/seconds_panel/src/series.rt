// The lines of the panel.
ghost use Rattle.std.specs.Prelude.{◌≡◌, ◌≤◌, length};
ghost use Rattle.seconds_panel.specs.Lines.{series_color, series_dash, series_name, series_paint};
ghost use Rattle.seconds_panel.specs.Seconds.{told_of};

use page_marks::{amber, dashed_paint, ink, vermilion};
use svg_text::{Color, Dash, Paint};
use test_seconds::PairSeconds;

/// What a line of the panel tells.
#[derive(Clone, Copy)]
pub(crate) enum Series {
    /// The seconds that the range test of a traffic advisory needs.
    TrafficRange,
    /// Those of a resolution advisory.
    ResolutionRange,
    /// The seconds that its altitude test needs.
    ResolutionAltitude,
    /// Tau of a traffic advisory.
    TrafficTau,
    /// Tau of a resolution advisory.
    ResolutionTau,
}

impl Series {
    ghost use Rattle.std.specs.Prelude.{◌≡◌, ◌≤◌, length};
    ghost use Rattle.seconds_panel.specs.Lines.{series_color, series_dash, series_name, series_paint};
    ghost use Rattle.seconds_panel.specs.Seconds.{told_of};

    /// What it tells of what the tests need.
    pub(crate) fn told(self, seconds: &PairSeconds) -> Option<u32>
        ensures { result ≡ told_of self seconds.now }
    {
        match self {
            Series::TrafficRange => seconds.ta.range,
            Series::ResolutionRange => match seconds.ra {
                Some(needs) => needs.range,
                None => None,
            },
            Series::ResolutionAltitude => match seconds.ra {
                Some(needs) => needs.altitude,
                None => None,
            },
            Series::TrafficTau => Some(u32::from(seconds.ta.tau)),
            Series::ResolutionTau => match seconds.ra {
                Some(needs) => Some(u32::from(needs.tau)),
                None => None,
            },
        }
    }

    pub(crate) fn name(self) -> &'static str
        ensures text { result.now ≡ series_name self }
        ensures short { length result.now ≤ 11 }
    {
        match self {
            Series::TrafficRange => "TA range",
            Series::ResolutionRange => "RA range",
            Series::ResolutionAltitude => "RA altitude",
            Series::TrafficTau => "TA tau",
            Series::ResolutionTau => "RA tau",
        }
    }

    pub(crate) fn color(self) -> Color
        ensures { result ≡ series_color self }
    {
        match self {
            Series::TrafficRange | Series::TrafficTau => amber(),
            Series::ResolutionRange | Series::ResolutionTau => vermilion(),
            Series::ResolutionAltitude => ink(),
        }
    }

    fn dash(self) -> Dash
        ensures { result ≡ series_dash self }
    {
        match self {
            Series::TrafficRange => Dash::LongAndDot,
            Series::ResolutionRange => Dash::Solid,
            Series::ResolutionAltitude => Dash::Dotted,
            Series::TrafficTau => Dash::Short,
            Series::ResolutionTau => Dash::Long,
        }
    }

    /// How it is drawn.
    pub(crate) fn paint(self) -> Paint
        ensures { result ≡ series_paint self }
    {
        dashed_paint(self.color(), 35, self.dash())
    }
}
