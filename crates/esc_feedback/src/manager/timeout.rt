// Timeouts: the open request is given up.
ghost use Rattle.std.specs.Prelude.{◌≡◌};
ghost use Rattle.esc_feedback.specs.Timeout.{poll_timeout, timed_out, ack_timed_out, response_timed_out};

use crate::answer::{After, EscManagerTimeout};
use crate::manager::EscManager;
use crate::pending::PendingRequest;
use base::elapsed_at_least;
use esc_lanes::EscActuatorRequest;

impl EscManager {
    // 04: the open request is given up once its time is over.
    #[tactic(auto, unfolding(crate::specs::Timeout::poll_timeout, crate::specs::Timeout::polled_on))]
    pub fn poll_timeout(self, now_ms: u64) -> After<Option<EscManagerTimeout>>
        ensures { result ≡ poll_timeout self now_ms }
    {
        let config = self.config;
        match self.pending {
            Some(
                PendingRequest::Queued {
                    request,
                    queued_at_ms,
                    ..
                },
            ) if elapsed_at_least(queued_at_ms, now_ms, config.actuator_ack_timeout_ms) => {
                self.ack_timed_out(request, now_ms)
            }
            Some(
                PendingRequest::Started {
                    request,
                    started_at_ms,
                },
            ) if elapsed_at_least(started_at_ms, now_ms, config.telemetry_response_timeout_ms) => {
                self.response_timed_out(request, now_ms)
            }
            _ => After {
                manager: self,
                answer: None,
            },
        }
    }

    // The request was queued and never acknowledged.
    fn ack_timed_out(
        self,
        request: EscActuatorRequest,
        now_ms: u64,
    ) -> After<Option<EscManagerTimeout>>
        ensures { result ≡ ack_timed_out self request now_ms }
    {
        let mut manager = self.timed_out(now_ms);
        manager.stats.actuator_ack_timeouts = self.stats.actuator_ack_timeouts.wrapping_add(1);
        After {
            manager,
            answer: Some(EscManagerTimeout::ActuatorAck(request)),
        }
    }

    // It was started, and no frame came.
    fn response_timed_out(
        self,
        request: EscActuatorRequest,
        now_ms: u64,
    ) -> After<Option<EscManagerTimeout>>
        ensures { result ≡ response_timed_out self request now_ms }
    {
        let mut manager = self.timed_out(now_ms);
        manager.stats.telemetry_response_timeouts = self
            .stats
            .telemetry_response_timeouts
            .wrapping_add(1);
        After {
            manager,
            answer: Some(EscManagerTimeout::TelemetryResponse(request)),
        }
    }

    // What both timeouts do: nothing is open, and telemetry stops.
    fn timed_out(self, now_ms: u64) -> EscManager
        ensures { result ≡ timed_out self now_ms }
    {
        Self {
            pending: None,
            fault: self.fault.timed_out(now_ms),
            ..self
        }
    }
}
