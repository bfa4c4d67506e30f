// 01 to 04: requests, their queueing, their start and their end.
ghost use Rattle.std.specs.Prelude.{◌≡◌};
ghost use Rattle.esc_kinds.specs.Step.{step_of};

use crate::opened::{Opened, Stepped};
use esc_answers::{AckAnswer, Answer, Delivered};
use esc_feedback::EscAckOutcome;
use esc_lanes::{EscActuatorAck, EscActuatorRequest};
use esc_records::Record;

impl Opened {
    // 01: which request is wanted now; nothing changes.
    #[tactic(auto, unfolding(crate::specs::Step::step_of))]
    pub(crate) fn next_request(self, now_ms: u64) -> Stepped
        ensures { result ≡ step_of self.manager self.books (Record.NextRequest now_ms) }
    {
        self.answered(Answer::Request(self.manager.next_request(now_ms)))
    }

    // 02: a request was queued, if it is the one wanted.
    #[tactic(auto, unfolding(crate::specs::Step::step_of))]
    pub(crate) fn mark_request_queued(self, request: EscActuatorRequest, now_ms: u64) -> Stepped
        ensures { result ≡ step_of self.manager self.books (Record.MarkRequestQueued request now_ms) }
    {
        let marked = self.manager.mark_request_queued(request, now_ms);
        let opened = Opened {
            manager: marked.manager,
            ..self
        };
        opened.answered(Answer::Decided(marked.answer))
    }

    // 03: a frame that came early is judged now, at the record's own time.
    #[tactic(auto, unfolding(crate::specs::Step::step_of))]
    pub(crate) fn on_actuator_ack(self, ack: EscActuatorAck, now_ms: u64) -> Stepped
        ensures { result ≡ step_of self.manager self.books (Record.ActuatorAck ack now_ms) }
    {
        let acked = self.manager.on_actuator_ack(ack);
        let mut opened = self;
        opened.manager = acked.manager;
        match acked.answer {
            EscAckOutcome::Rejected => opened.answered(Answer::Ack(AckAnswer::Rejected)),
            EscAckOutcome::Accepted => opened.answered(Answer::Ack(AckAnswer::Accepted)),
            EscAckOutcome::Sample(update) => {
                let booked = self.books.booked(update, now_ms);
                opened.books = booked.books;
                let status = booked.status;
                let sample = AckAnswer::Sample(Delivered { update, status });
                opened.answered(Answer::Ack(sample))
            }
        }
    }

    // 04: the open request is given up once its time is over.
    #[tactic(auto, unfolding(crate::specs::Step::step_of))]
    pub(crate) fn poll_timeout(self, now_ms: u64) -> Stepped
        ensures { result ≡ step_of self.manager self.books (Record.PollTimeout now_ms) }
    {
        let polled = self.manager.poll_timeout(now_ms);
        let opened = Opened {
            manager: polled.manager,
            ..self
        };
        opened.answered(Answer::Timeout(polled.answer))
    }
}
