// The settings that esc_manager.rs names, and which settings of the idle check are valid: each limit met and
// missed. What is expected is what esc_manager.rs gave.
use esc_fault::ESC_RETRY_BACKOFF_STEPS;
use esc_feedback::{ESC_REQUEST_EXPIRY_MS, EscManagerConfig};
use esc_idle::{
    DSHOT_IDLE_QUALIFICATION_CONFIG, DSHOT_IDLE_THROTTLE_COMMAND, DSHOT_PREARM_STOP_HOLD_MS,
    EscIdleQualificationConfig, dshot_idle_qualification_config,
};

// The settings that the boards fly, and the constants.
pub fn run(rt: &impl Print) {
    named(rt);
    check(rt, DSHOT_IDLE_QUALIFICATION_CONFIG);
    check(rt, dshot_idle_qualification_config());
    check(rt, settings(0, 100, 250, 1200, 200, 3));
    check(rt, settings(1, 2, 0, 1, 1, 1));
    check(rt, settings(100, 100, 250, 1200, 200, 3));
    check(rt, settings(30, 100, 1200, 1200, 200, 3));
    check(rt, settings(30, 100, 250, 1200, 0, 3));
    check(rt, settings(30, 100, 250, 1200, 200, 0));
}

fn named(rt: &impl Print) {
    let config = EscManagerConfig::legacy_uart();
    let _ = println!(rt;
        "settings legacy_uart {} {} {} {} {}",
        config.boot_delay_ms,
        config.request_period_ms,
        config.actuator_ack_timeout_ms,
        config.telemetry_response_timeout_ms,
        config.recovery_quiet_ms
    );
    let _ = println!(rt;
        "settings expiry, backoff, hold, throttle {} {} {} {}",
        ESC_REQUEST_EXPIRY_MS,
        ESC_RETRY_BACKOFF_STEPS,
        DSHOT_PREARM_STOP_HOLD_MS,
        DSHOT_IDLE_THROTTLE_COMMAND
    );
}

fn settings(
    min_erpm_div100: u16,
    max_erpm_div100: u16,
    spinup_grace_ms: u32,
    timeout_ms: u32,
    max_sample_age_ms: u32,
    required_consecutive_samples: u8,
) -> EscIdleQualificationConfig {
    EscIdleQualificationConfig {
        min_erpm_div100,
        max_erpm_div100,
        spinup_grace_ms,
        timeout_ms,
        max_sample_age_ms,
        required_consecutive_samples,
    }
}

fn check(rt: &impl Print, config: EscIdleQualificationConfig) {
    let word = if config.is_valid() {
        "valid"
    } else {
        "invalid"
    };
    let _ = println!(rt;
        "{word} settings {} {} {} {} {} {}",
        config.min_erpm_div100,
        config.max_erpm_div100,
        config.spinup_grace_ms,
        config.timeout_ms,
        config.max_sample_age_ms,
        config.required_consecutive_samples
    );
}
