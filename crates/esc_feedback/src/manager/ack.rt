// Acknowledgements: a request has been sent to its ESC.
ghost use Rattle.std.specs.Prelude.{◌≡◌};
ghost use Rattle.esc_feedback.specs.Ack.{on_ack, rejected_ack, started_by};

use crate::answer::{After, EscAckOutcome};
use crate::manager::EscManager;
use crate::pending::PendingRequest;
use esc_lanes::{EscActuatorAck, EscActuatorRequest, EscTelemetryObservation, EscTelemetryUpdate};

impl EscManager {
    // 03: the open request was started, and a frame that was held for it is delivered; any other is counted.
    #[tactic(auto, using(esc_lanes::proofs::RequestLaws::request_equal), unfolding(crate::specs::Ack::on_ack, crate::specs::Ack::ack_on))]
    pub fn on_actuator_ack(self, ack: EscActuatorAck) -> After<EscAckOutcome>
        ensures { result ≡ on_ack self ack }
    {
        // While faulted: the actuator was still busy with a request, so it is not quiet yet.
        let manager = Self {
            fault: self.fault.heard(ack.started_at_ms),
            ..self
        };
        let Some(PendingRequest::Queued { request, early, .. }) = self.pending else {
            return manager.mismatched();
        };
        if ack.request == request {
            return manager.started(request, ack.started_at_ms, early);
        }
        manager.mismatched()
    }

    fn mismatched(self) -> After<EscAckOutcome>
        ensures { result ≡ rejected_ack self }
    {
        let mut manager = self;
        manager.stats.mismatched_acks = self.stats.mismatched_acks.wrapping_add(1);
        After {
            manager,
            answer: EscAckOutcome::Rejected,
        }
    }

    // The queued request was started: a frame that came early is its sample, else it is waited for.
    fn started(
        self,
        request: EscActuatorRequest,
        started_at_ms: u64,
        early: Option<EscTelemetryObservation>,
    ) -> After<EscAckOutcome>
        ensures { result ≡ started_by self request started_at_ms early }
    {
        let mut manager = self;
        manager.stats.requests_started = self.stats.requests_started.wrapping_add(1);
        match early {
            None => {
                manager.pending = Some(PendingRequest::Started {
                    request,
                    started_at_ms,
                });
                After {
                    manager,
                    answer: EscAckOutcome::Accepted,
                }
            }
            Some(observation) => After {
                manager: manager.delivered(),
                answer: EscAckOutcome::Sample(EscTelemetryUpdate {
                    output: request.output,
                    observation,
                }),
            },
        }
    }
}
