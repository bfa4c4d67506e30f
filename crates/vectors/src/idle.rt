// The idle check's verdict and counts after each sample: its time, its eRPM/100 and the four counts. What is
// expected is what esc_manager.rs gave.
use blheli_telemetry::EscTelemetry;
use esc_idle::{EscIdleQualification, EscIdleQualificationConfig, EscIdleQualificationStatus};
use esc_lanes::{EscOutput, EscTelemetryObservation, EscTelemetryUpdate, Lane};

// The idle check: which settings are valid, and what it says to samples.
pub fn run(rt: &impl Print) {
    let config = EscIdleQualificationConfig {
        min_erpm_div100: 30,
        max_erpm_div100: 100,
        spinup_grace_ms: 10,
        timeout_ms: 1200,
        max_sample_age_ms: 200,
        required_consecutive_samples: 2,
    };
    steady(rt, EscIdleQualification::new(config, 0));
    fast(rt, EscIdleQualification::new(config, 0));
}

// The grace, both limits, a lane that is cleared for being slow, lanes that expire, and every lane counted.
fn steady(rt: &impl Print, first: EscIdleQualification) {
    let mut idle = observe(rt, first, Lane::Output1, 50, 9);
    idle = observe(rt, idle, Lane::Output1, 30, 10);
    idle = observe(rt, idle, Lane::Output2, 100, 11);
    idle = observe(rt, idle, Lane::Output1, 29, 12);
    idle = observe(rt, idle, Lane::Output3, 50, 211);
    idle = observe(rt, idle, Lane::Output4, 50, 212);
    idle = observe(rt, idle, Lane::Output4, 51, 213);
    idle = observe(rt, idle, Lane::Output3, 52, 214);
    idle = observe(rt, idle, Lane::Output2, 53, 215);
    idle = observe(rt, idle, Lane::Output1, 54, 216);
    idle = observe(rt, idle, Lane::Output2, 55, 217);
    idle = observe(rt, idle, Lane::Output1, 56, 218);
    observe(rt, idle, Lane::Output1, 57, 5000);
}

// One above the upper limit.
fn fast(rt: &impl Print, first: EscIdleQualification) {
    let mut idle = observe(rt, first, Lane::Output3, 100, 10);
    idle = observe(rt, idle, Lane::Output3, 101, 11);
    observe(rt, idle, Lane::Output3, 50, 12);
}

fn observe(
    rt: &impl Print,
    idle: EscIdleQualification,
    lane: Lane,
    erpm_div100: u16,
    at_ms: u64,
) -> EscIdleQualification {
    let judged = idle.observe(update(lane, erpm_div100, at_ms), at_ms);
    let word = match judged.status {
        EscIdleQualificationStatus::Pending => "pending",
        EscIdleQualificationStatus::Qualified => "qualified",
        EscIdleQualificationStatus::Failed(_) => "failed",
    };
    let [a, b, c, d] = judged.idle.consecutive_samples();
    let _ = println!(rt; "idle {word} {at_ms} {erpm_div100} {a} {b} {c} {d}");
    judged.idle
}

fn update(lane: Lane, erpm_div100: u16, at_ms: u64) -> EscTelemetryUpdate {
    let sample = EscTelemetry {
        temperature_c: 0,
        voltage_cv: 0,
        current_ca: 0,
        consumption_mah: 0,
        erpm_div100,
    };
    let observation = EscTelemetryObservation {
        sample,
        observed_at_ms: at_ms,
        request_sequence: 0,
    };
    let output = EscOutput(lane);
    EscTelemetryUpdate {
        output,
        observation,
    }
}
