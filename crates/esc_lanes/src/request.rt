// What passes between the manager, the actuator and the wire.
ghost use Rattle.std.specs.Prelude.{◌≡◌};
ghost use Rattle.esc_lanes.specs.Request.{observation_of, update_of};

use crate::output::EscOutput;
use blheli_telemetry::EscTelemetry;

#[derive(Clone, Copy, PartialEq, Eq)]
pub struct EscActuatorRequest {
    pub sequence: u32,
    pub output: EscOutput,
}

#[derive(Clone, Copy)]
pub struct EscActuatorAck {
    pub request: EscActuatorRequest,
    pub started_at_ms: u64,
}

#[derive(Clone, Copy)]
pub struct EscTelemetryObservation {
    pub sample: EscTelemetry,
    pub observed_at_ms: u64,
    pub request_sequence: u32,
}

#[derive(Clone, Copy)]
pub struct EscTelemetryUpdate {
    pub output: EscOutput,
    pub observation: EscTelemetryObservation,
}

impl EscActuatorRequest {
    // This request's sample: observed when the last byte of its frame came.
    pub fn answered(self, sample: EscTelemetry, observed_at_ms: u64) -> EscTelemetryUpdate
        ensures { result ≡ update_of self (observation_of self sample observed_at_ms) }
    {
        EscTelemetryUpdate {
            output: self.output,
            observation: EscTelemetryObservation {
                sample,
                observed_at_ms,
                request_sequence: self.sequence,
            },
        }
    }
}
