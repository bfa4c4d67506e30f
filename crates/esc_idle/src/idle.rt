// The idle check: every motor turns within limits, steadily, before arming goes on. A terminal
// verdict stays.
ghost use Rattle.std.specs.Prelude.{◌≡◌};
ghost use Rattle.esc_idle.specs.IdleLane.{every_enough};
ghost use Rattle.esc_idle.specs.Idle.{standing, new_idle, observe_of, status_of, measured, sampled, fresh_at, weighed, saying, decided, lane_counts};

use crate::idle_config::EscIdleQualificationConfig;
use crate::idle_lane::IdleLane;
use crate::idle_verdict::{EscIdleQualificationFailure, EscIdleQualificationStatus};
use base::elapsed_at_least;
use esc_lanes::EscTelemetryUpdate;

#[derive(Clone, Copy)]
pub struct EscIdleQualification {
    config: EscIdleQualificationConfig,
    started_at_ms: u64,
    lanes: [IdleLane; 4],
    // The terminal answer, once there is one.
    verdict: Option<EscIdleQualificationStatus>,
}

// The check after a call, and the call's answer.
#[derive(Clone, Copy)]
pub struct EscIdleJudged {
    pub idle: EscIdleQualification,
    pub status: EscIdleQualificationStatus,
}

impl EscIdleQualification {
    // 0a: a check that begins now.
    pub fn new(config: EscIdleQualificationConfig, started_at_ms: u64) -> Self
        ensures { result ≡ new_idle config started_at_ms }
    {
        Self {
            config,
            started_at_ms,
            lanes: [IdleLane::clear(); 4],
            verdict: None,
        }
    }

    // A delivered sample: counted or ignored, and judged.
    #[tactic(auto, unfolding(crate::specs::Idle::observe_of))]
    pub fn observe(self, update: EscTelemetryUpdate, now_ms: u64) -> EscIdleJudged
        ensures { result ≡ observe_of self update now_ms }
    {
        if let Some(status) = self.standing() {
            return self.decide(status);
        }
        if elapsed_at_least(self.started_at_ms, now_ms, self.config.spinup_grace_ms) {
            return self.measured(update, now_ms);
        }
        self.pending()
    }

    // 0b: the verdict at a time, with no new sample.
    #[tactic(auto, unfolding(crate::specs::Idle::status_of))]
    pub fn status(self, now_ms: u64) -> EscIdleJudged
        ensures { result ≡ status_of self now_ms }
    {
        if let Some(status) = self.standing() {
            return self.decide(status);
        }
        self.fresh_at(now_ms).weighed(now_ms)
    }

    // How many samples in a row each lane has within limits.
    pub fn consecutive_samples(self) -> [u8; 4]
        ensures { result ≡ lane_counts self }
    {
        self.lanes.map(|lane| lane.consecutive_samples)
    }

    // The verdict that stands whatever comes: a terminal one stays, and invalid settings fail first.
    fn standing(self) -> Option<EscIdleQualificationStatus>
        ensures { result ≡ standing self self.verdict }
    {
        if self.verdict.is_some() || self.config.is_valid() {
            return self.verdict;
        }
        Some(EscIdleQualificationStatus::Failed(EscIdleQualificationFailure::InvalidConfig))
    }

    // The answer to a sample that is not ignored.
    #[tactic(auto, unfolding(crate::specs::Idle::measured))]
    fn measured(self, update: EscTelemetryUpdate, now_ms: u64) -> EscIdleJudged
        ensures { result ≡ measured self update now_ms }
    {
        let erpm_div100 = update.observation.sample.erpm_div100;
        if self.config.max_erpm_div100 < erpm_div100 {
            return self.fail(EscIdleQualificationFailure::Overspeed {
                output: update.output,
                erpm_div100,
            });
        }
        self.sampled(update).status(now_ms)
    }

    // The check with the sample counted in its lane.
    fn sampled(self, update: EscTelemetryUpdate) -> EscIdleQualification
        ensures { result ≡ sampled self update }
    {
        let mut idle = self;
        let lane = update.output.index();
        idle.lanes[lane] = self.lanes[lane].counted(
            self.config.min_erpm_div100,
            update.observation,
        );
        idle
    }

    // The check with every expired lane cleared.
    #[tactic(auto, unfolding(crate::specs::IdleLane::expire_lanes))]
    fn fresh_at(self, now_ms: u64) -> EscIdleQualification
        ensures { result ≡ fresh_at self now_ms }
    {
        Self {
            lanes: self
                .lanes
                .map(|lane| lane.expire(self.config.max_sample_age_ms, now_ms)),
            ..self
        }
    }

    // The answer that the counts give. Enough samples qualify even at the timeout itself.
    #[tactic(auto, unfolding(crate::specs::Idle::weighed))]
    fn weighed(self, now_ms: u64) -> EscIdleJudged
        ensures { result ≡ weighed self now_ms }
    {
        if self.every_lane_has_enough() {
            return self.decide(EscIdleQualificationStatus::Qualified);
        }
        if elapsed_at_least(self.started_at_ms, now_ms, self.config.timeout_ms) {
            return self.fail(EscIdleQualificationFailure::Timeout {
                consecutive_samples: self.consecutive_samples(),
            });
        }
        self.pending()
    }

    #[tactic(auto, unfolding(crate::specs::IdleLane::every_enough))]
    fn every_lane_has_enough(self) -> bool
        ensures { result ≡ every_enough self.config.required_consecutive_samples self.lanes }
    {
        let required = self.config.required_consecutive_samples;
        self.lanes.iter().all(|lane| lane.has(required))
    }

    // No verdict yet.
    fn pending(self) -> EscIdleJudged
        ensures { result ≡ saying self EscIdleQualificationStatus.Pending }
    {
        EscIdleJudged {
            idle: self,
            status: EscIdleQualificationStatus::Pending,
        }
    }

    fn fail(self, failure: EscIdleQualificationFailure) -> EscIdleJudged
        ensures { result ≡ decided self (EscIdleQualificationStatus.Failed failure) }
    {
        self.decide(EscIdleQualificationStatus::Failed(failure))
    }

    // The status given for good.
    fn decide(self, status: EscIdleQualificationStatus) -> EscIdleJudged
        ensures { result ≡ decided self status }
    {
        EscIdleJudged {
            idle: Self {
                verdict: Some(status),
                ..self
            },
            status,
        }
    }
}
