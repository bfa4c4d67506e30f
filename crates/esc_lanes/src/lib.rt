// The four lanes, a request to one of them, the sample that answers it, and the newest sample of each. Who
// reads samples, or names a lane, has them from here without the manager. No public function has a `requires`.
#![tactic(auto)]

mod output;
mod request;
mod samples;

pub use output::{EscOutput, Lane};
pub use request::{
    EscActuatorAck, EscActuatorRequest, EscTelemetryObservation, EscTelemetryUpdate,
};
pub use samples::EscSamples;
