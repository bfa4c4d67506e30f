// Figures of each lane: samples delivered, the largest temperature and the lowest voltage. They are
// kept over recovery.
ghost use Rattle.std.specs.Prelude.{◌≡◌};
ghost use Rattle.esc_books.specs.Figures.{no_figure, with_sample, no_figures, figure_at, figures_with};

use base::saturating_inc;
use blheli_telemetry::EscTelemetry;
use esc_answers::Figure;
use esc_lanes::{EscOutput, EscTelemetryUpdate};

#[derive(Clone, Copy)]
pub struct Figures {
    lanes: [Figure; 4],
}

impl Figures {
    // No sample in any lane.
    pub fn new() -> Self
        ensures { result ≡ no_figures }
    {
        Self {
            lanes: [no_figure(); 4],
        }
    }

    // A lane's figures.
    pub fn at(self, output: EscOutput) -> Figure
        ensures { result ≡ figure_at self output }
    {
        self.lanes[output.index()]
    }

    // The figures with a delivered sample in its lane's.
    pub fn with(self, update: EscTelemetryUpdate) -> Figures
        ensures { result ≡ figures_with self update }
    {
        let mut figures = self;
        let lane = update.output.index();
        figures.lanes[lane] = with_sample(self.lanes[lane], update.observation.sample);
        figures
    }
}

// All 0 before the first sample.
fn no_figure() -> Figure
    ensures { result ≡ no_figure }
{
    Figure::default()
}

#[tactic(auto, unfolding(crate::specs::Figures::with_sample))]
fn with_sample(figure: Figure, sample: EscTelemetry) -> Figure
    ensures { result ≡ with_sample figure sample }
{
    if figure.samples == 0 {
        return Figure {
            samples: 1,
            hottest_c: sample.temperature_c,
            lowest_cv: sample.voltage_cv,
        };
    }
    Figure {
        samples: saturating_inc(figure.samples),
        hottest_c: figure.hottest_c.max(sample.temperature_c),
        lowest_cv: figure.lowest_cv.min(sample.voltage_cv),
    }
}
