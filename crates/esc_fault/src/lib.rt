// The fault that a timeout leaves: its quiet time, its retries, and when telemetry may resume. No public
// function has a `requires`.
#![tactic(auto)]

mod backoff;
mod fault;

pub use backoff::{ESC_RETRY_BACKOFF_STEPS, esc_retry_backoff_steps};
pub use fault::Fault;
