// What the manager's calls answer.
use crate::manager::EscManager;
use esc_lanes::{EscActuatorRequest, EscTelemetryUpdate};

// The manager after a call, and the call's answer.
#[derive(Clone, Copy)]
pub struct After<A> {
    pub manager: EscManager,
    pub answer: A,
}

#[derive(Clone, Copy)]
pub enum EscAckOutcome {
    Accepted,
    Sample(EscTelemetryUpdate),
    Rejected,
}

#[derive(Clone, Copy)]
pub enum EscManagerTimeout {
    ActuatorAck(EscActuatorRequest),
    TelemetryResponse(EscActuatorRequest),
}
