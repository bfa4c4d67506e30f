// What only an opening, a delivered sample, a recovery and the kinds 0a, 0b, 0d and 0e touch: stored samples, at
// most one idle check, figures. It stands beside the manager, so that the calls of the wire do not move it.
ghost use Rattle.std.specs.Prelude.{◌≡◌};
ghost use Rattle.esc_books.specs.Books.{no_books, checked_by, samples_dropped, if_checking, booked_in, idle_status, stored_at, lane_figure};

use crate::figures::Figures;
use esc_answers::Figure;
use esc_idle::{
    EscIdleJudged, EscIdleQualification, EscIdleQualificationConfig, EscIdleQualificationStatus,
};
use esc_lanes::{EscOutput, EscSamples, EscTelemetryUpdate};

#[derive(Clone, Copy)]
pub struct Books {
    samples: EscSamples,
    idle: Option<EscIdleQualification>,
    figures: Figures,
}

// The books after a call, and what the idle check says, if there is one.
#[derive(Clone, Copy)]
pub struct Booked {
    pub books: Books,
    pub status: Option<EscIdleQualificationStatus>,
}

impl Books {
    // No sample, no check.
    pub fn new() -> Self
        ensures { result ≡ no_books }
    {
        Self {
            samples: EscSamples::new(),
            idle: None,
            figures: Figures::new(),
        }
    }

    // A new check in place of the one before.
    pub fn with_check(self, config: EscIdleQualificationConfig, started_at_ms: u64) -> Books
        ensures { result ≡ checked_by self config started_at_ms }
    {
        Self {
            idle: Some(EscIdleQualification::new(config, started_at_ms)),
            ..self
        }
    }

    // After a recovery: arming needs fresh eRPM from each motor.
    pub fn samples_dropped(self) -> Books
        ensures { result ≡ samples_dropped self }
    {
        let samples = EscSamples::new();
        Self { samples, ..self }
    }

    // A delivered sample is stored, counted in the figures and shown to the check.
    #[tactic(auto, unfolding(crate::specs::Books::booked_in))]
    pub fn booked(self, update: EscTelemetryUpdate, now_ms: u64) -> Booked
        ensures { result ≡ booked_in self update now_ms }
    {
        let books = Self {
            samples: self.samples.stored(update),
            figures: self.figures.with(update),
            ..self
        };
        books.judged(self.idle.map(|idle| idle.observe(update, now_ms)))
    }

    // What the idle check says at a time, and the books with its verdict.
    #[tactic(auto, unfolding(crate::specs::Books::idle_status))]
    pub fn idle_status(self, now_ms: u64) -> Booked
        ensures { result ≡ idle_status self now_ms }
    {
        self.judged(self.idle.map(|idle| idle.status(now_ms)))
    }

    // The check, if there is one, as it judged, and what it said.
    fn judged(self, found: Option<EscIdleJudged>) -> Booked
        ensures { result ≡ if_checking self found }
    {
        let Some(judged) = found else {
            return Booked {
                books: self,
                status: None,
            };
        };
        Booked {
            books: Self {
                idle: Some(judged.idle),
                ..self
            },
            status: Some(judged.status),
        }
    }

    // 0d: the lane's newest sample since the latest recovery.
    pub fn stored(self, output: EscOutput) -> Option<EscTelemetryUpdate>
        ensures { result ≡ stored_at self output }
    {
        self.samples
            .at(output)
            .map(|observation| EscTelemetryUpdate {
                output,
                observation,
            })
    }

    // 0e: the lane's figures.
    pub fn figure(self, output: EscOutput) -> Figure
        ensures { result ≡ lane_figure self output }
    {
        self.figures.at(output)
    }
}
