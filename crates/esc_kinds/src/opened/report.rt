// 0a to 0e: the idle check, and what the manager and the books show.
ghost use Rattle.std.specs.Prelude.{◌≡◌};
ghost use Rattle.esc_kinds.specs.Step.{step_of};

use crate::opened::{Opened, Stepped};
use esc_answers::{Answer, UnitReport};
use esc_idle::EscIdleQualificationConfig;
use esc_lanes::EscOutput;
use esc_records::Record;

impl Opened {
    // 0a: a new check in place of the one before.
    #[tactic(auto, unfolding(crate::specs::Step::step_of))]
    pub(crate) fn idle_check(
        self,
        config: EscIdleQualificationConfig,
        started_at_ms: u64,
    ) -> Stepped
        ensures { result ≡ step_of self.manager self.books (Record.IdleCheck config started_at_ms) }
    {
        let opened = Opened {
            books: self.books.with_check(config, started_at_ms),
            ..self
        };
        opened.answered(Answer::Done)
    }

    // 0b: the check keeps its verdict.
    #[tactic(auto, unfolding(crate::specs::Step::step_of))]
    pub(crate) fn idle_status(self, now_ms: u64) -> Stepped
        ensures { result ≡ step_of self.manager self.books (Record.IdleStatus now_ms) }
    {
        let booked = self.books.idle_status(now_ms);
        let opened = Opened {
            books: booked.books,
            ..self
        };
        opened.answered(Answer::Idle(booked.status))
    }

    // 0c: what the manager counts, and whether it is faulted or retrying.
    #[tactic(auto, unfolding(crate::specs::Step::step_of))]
    pub(crate) fn report(self) -> Stepped
        ensures { result ≡ step_of self.manager self.books Record.Report }
    {
        let report = UnitReport {
            faulted: self.manager.is_faulted(),
            retrying: self.manager.is_retrying(),
            stats: self.manager.stats(),
        };
        self.answered(Answer::Report(report))
    }

    // 0d: the lane's newest delivered sample.
    #[tactic(auto, unfolding(crate::specs::Step::step_of))]
    pub(crate) fn stored_sample(self, output: EscOutput) -> Stepped
        ensures { result ≡ step_of self.manager self.books (Record.StoredSample output) }
    {
        self.answered(Answer::Stored(self.books.stored(output)))
    }

    // 0e: how many samples the lane had, its hottest and its lowest voltage.
    #[tactic(auto, unfolding(crate::specs::Step::step_of))]
    pub(crate) fn figures(self, output: EscOutput) -> Stepped
        ensures { result ≡ step_of self.manager self.books (Record.Figures output) }
    {
        self.answered(Answer::Figures(self.books.figure(output)))
    }
}
