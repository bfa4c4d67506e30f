// The idle check: whether each motor idles within limits before take-off. A port of the second half of
// ferrowasp-feedback's esc_manager.rs. No public function has a `requires`.
#![tactic(auto)]

mod idle;
mod idle_config;
mod idle_lane;
mod idle_verdict;

pub use idle::{EscIdleJudged, EscIdleQualification};
pub use idle_config::{
    DSHOT_IDLE_QUALIFICATION_CONFIG, DSHOT_IDLE_THROTTLE_COMMAND, DSHOT_PREARM_STOP_HOLD_MS,
    EscIdleQualificationConfig, dshot_idle_qualification_config, dshot_idle_throttle_command,
    dshot_prearm_stop_hold_ms,
};
pub use idle_verdict::{EscIdleQualificationFailure, EscIdleQualificationStatus};
