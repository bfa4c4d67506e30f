// Whose turn it is: the next request's output and sequence, and when the last one was queued.
ghost use Rattle.std.specs.Prelude.{◌≡◌};
ghost use Rattle.esc_feedback.specs.Turn.{first_turn, turn_request, period_due, turn_after};

use base::elapsed_at_least;
use esc_lanes::{EscActuatorRequest, EscOutput};

#[derive(Clone, Copy)]
pub struct Turn {
    pub output: EscOutput,
    pub sequence: u32,
    pub last_request_ms: Option<u64>,
}

impl Turn {
    // The first request has lane 0 and sequence 0.
    pub fn new() -> Self
        ensures { result ≡ first_turn }
    {
        Self {
            output: EscOutput::ALL[0],
            sequence: 0,
            last_request_ms: None,
        }
    }

    // The request whose turn it is.
    pub fn request(self) -> EscActuatorRequest
        ensures { result ≡ turn_request self }
    {
        EscActuatorRequest {
            sequence: self.sequence,
            output: self.output,
        }
    }

    // Whether the period since the last queueing has gone by, if there was one.
    pub fn period_due(self, now_ms: u64, period_ms: u32) -> bool
        ensures { result ≡ period_due self.last_request_ms now_ms period_ms }
    {
        self.last_request_ms
            .is_none_or(|last_ms| elapsed_at_least(last_ms, now_ms, period_ms))
    }

    // The turn after this one's request was queued.
    pub fn after(self, now_ms: u64) -> Turn
        ensures { result ≡ turn_after self now_ms }
    {
        Turn {
            output: self.output.next(),
            sequence: self.sequence.wrapping_add(1),
            last_request_ms: Some(now_ms),
        }
    }
}
