// The manager's settings.
ghost use Rattle.std.specs.Prelude.{◌≡◌};
ghost use Rattle.esc_feedback.specs.Config.{legacy_uart};

// How long the actuator side may hold a telemetry request before it drops it unsent. The manager
// gives up on an acknowledgement after the same time, so a request that it has given up on never
// reaches an ESC later.
pub const ESC_REQUEST_EXPIRY_MS: u32 = 20;

#[derive(Clone, Copy)]
pub struct EscManagerConfig {
    pub boot_delay_ms: u32,
    pub request_period_ms: u32,
    pub actuator_ack_timeout_ms: u32,
    pub telemetry_response_timeout_ms: u32,
    // After a timeout, how long wire and acknowledgements must stay silent, disarmed, before requests
    // resume. It doubles for each retry that brings no frame back, up to ESC_RETRY_BACKOFF_STEPS
    // times, so unpowered ESCs are asked rarely; a delivered sample resets it.
    pub recovery_quiet_ms: u32,
}

impl EscManagerConfig {
    // The settings that the boards fly.
    pub fn legacy_uart() -> Self
        ensures { result ≡ legacy_uart }
    {
        Self {
            boot_delay_ms: 5000,
            request_period_ms: 20,
            actuator_ack_timeout_ms: ESC_REQUEST_EXPIRY_MS,
            telemetry_response_timeout_ms: 100,
            recovery_quiet_ms: 500,
        }
    }
}

// `ESC_REQUEST_EXPIRY_MS` with its value stated, for contracts.
pub fn esc_request_expiry_ms() -> u32
    ensures { result ≡ 20 }
{
    ESC_REQUEST_EXPIRY_MS
}
