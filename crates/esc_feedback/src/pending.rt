// The open request: at most one, since a frame does not say which output sent it.
use esc_lanes::{EscActuatorRequest, EscTelemetryObservation};

#[derive(Clone, Copy)]
pub enum PendingRequest {
    Queued {
        request: EscActuatorRequest,
        queued_at_ms: u64,
        // A frame that came before the acknowledgement. The actuator runs at a higher priority and can acknowledge
        // after the manager has read its queue, so the frame is held until that very acknowledgement is read.
        early: Option<EscTelemetryObservation>,
    },
    Started {
        request: EscActuatorRequest,
        started_at_ms: u64,
    },
}
