// One lane of the idle check.
ghost use Rattle.std.specs.Prelude.{◌≡◌};
ghost use Rattle.esc_idle.specs.IdleLane.{clear_lane, count_lane, newest_expired, expire_lane, enough};

use base::{elapsed_at_least, saturating_inc};
use esc_lanes::EscTelemetryObservation;

#[derive(Clone, Copy)]
pub struct IdleLane {
    pub consecutive_samples: u8,
    // When the newest counted sample was observed; a clear lane has none.
    pub newest_ms: Option<u64>,
}

impl IdleLane {
    // No sample counted.
    pub fn clear() -> IdleLane
        ensures { result ≡ clear_lane }
    {
        IdleLane {
            consecutive_samples: 0,
            newest_ms: None,
        }
    }

    // The lane after a sample that is not above max.
    #[tactic(auto, unfolding(crate::specs::IdleLane::count_lane))]
    pub fn counted(self, min_erpm_div100: u16, observation: EscTelemetryObservation) -> IdleLane
        ensures { result ≡ count_lane min_erpm_div100 observation self }
    {
        if observation.sample.erpm_div100 < min_erpm_div100 {
            return IdleLane::clear();
        }
        IdleLane {
            consecutive_samples: self.consecutive_samples.saturating_add(1),
            newest_ms: Some(observation.observed_at_ms),
        }
    }

    // A sample is fresh up to the age limit itself and expires one millisecond later.
    #[tactic(auto, unfolding(crate::specs::IdleLane::newest_expired))]
    fn is_expired(self, max_sample_age_ms: u32, now_ms: u64) -> bool
        ensures { result ≡ newest_expired max_sample_age_ms now_ms self.newest_ms }
    {
        self.newest_ms.is_some_and(|observed_at_ms| {
            elapsed_at_least(observed_at_ms, now_ms, saturating_inc(max_sample_age_ms))
        })
    }

    // The lane as it is, or clear once its newest sample has expired.
    #[tactic(auto, unfolding(crate::specs::IdleLane::expire_lane))]
    pub fn expire(self, max_sample_age_ms: u32, now_ms: u64) -> IdleLane
        ensures { result ≡ expire_lane max_sample_age_ms now_ms self }
    {
        if self.is_expired(max_sample_age_ms, now_ms) {
            IdleLane::clear()
        } else {
            self
        }
    }

    // Whether the lane has as many samples in a row as required.
    pub fn has(self, required: u8) -> bool
        ensures { result ≡ enough required self }
    {
        self.consecutive_samples >= required
    }
}
