// Telemetry requests, their acknowledgements and the frames that answer them: a port of the manager in
// ferrowasp-feedback's esc_manager.rs. Its lanes and requests are in `esc_lanes`, its fault in `esc_fault`, its idle
// check in `esc_idle`. No public function has a `requires`.
#![tactic(auto)]

mod answer;
mod config;
mod manager;
mod pending;
mod stats;
mod turn;

pub use answer::{After, EscAckOutcome, EscManagerTimeout};
pub use config::{ESC_REQUEST_EXPIRY_MS, EscManagerConfig, esc_request_expiry_ms};
pub use manager::EscManager;
pub use stats::EscManagerStats;
