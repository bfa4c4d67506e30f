// Requests: which one is wanted now, and its queueing.
ghost use Rattle.std.specs.Prelude.{◌≡◌};
ghost use Rattle.esc_feedback.specs.Queueing.{next_request, mark_queued, granted};

use crate::answer::After;
use crate::manager::EscManager;
use crate::pending::PendingRequest;
use base::elapsed_at_least;
use esc_lanes::EscActuatorRequest;

impl EscManager {
    // The request that the manager wants the actuator to execute now. The caller marks it queued only
    // after the actuator's channel has taken it.
    #[tactic(auto, unfolding(crate::specs::Queueing::next_request, crate::specs::Queueing::request_exists))]
    pub fn next_request(self, now_ms: u64) -> Option<EscActuatorRequest>
        ensures { result ≡ next_request self now_ms }
    {
        let wanted = !self.is_faulted()
            && self.pending.is_none()
            && elapsed_at_least(self.boot_started_ms, now_ms, self.config.boot_delay_ms)
            && self.turn.period_due(now_ms, self.config.request_period_ms);
        wanted.then_some(self.turn.request())
    }

    // Yes where the request is the one wanted now.
    #[tactic(auto, using(crate::proofs::QueueingLaws::wanted_equal), unfolding(crate::specs::Queueing::mark_queued))]
    pub fn mark_request_queued(self, request: EscActuatorRequest, now_ms: u64) -> After<bool>
        ensures { result ≡ mark_queued self request now_ms }
    {
        if Some(request) != self.next_request(now_ms) {
            return After {
                manager: self,
                answer: false,
            };
        }
        After {
            manager: self.granted(request, now_ms),
            answer: true,
        }
    }

    fn granted(self, request: EscActuatorRequest, now_ms: u64) -> EscManager
        ensures { result ≡ granted self request now_ms }
    {
        let mut manager = self;
        manager.pending = Some(PendingRequest::Queued {
            request,
            queued_at_ms: now_ms,
            early: None,
        });
        manager.turn = self.turn.after(now_ms);
        manager.stats.requests_queued = self.stats.requests_queued.wrapping_add(1);
        manager
    }
}
