// What a unit has once it was opened, and what a step makes of it.
mod recovery;
mod report;
mod requests;
mod wire;

ghost use Rattle.std.specs.Prelude.{◌≡◌};
ghost use Rattle.esc_kinds.specs.Step.{stepped, opening, step_of};

use esc_answers::Answer;
use esc_books::Books;
use esc_feedback::{EscManager, EscManagerConfig};
use esc_records::Record;

// One manager and its books. Both are public, so that a loop over records can change in place what a record touches.
#[derive(Clone, Copy)]
pub struct Opened {
    pub manager: EscManager,
    pub books: Books,
}

// What is there after a record, and the record's answer.
#[derive(Clone, Copy)]
pub struct Stepped {
    pub opened: Opened,
    pub answer: Answer,
}

impl Opened {
    // 00: everything anew. It looks at nothing that came before, so it is the first step of a unit too.
    pub fn start(config: EscManagerConfig, boot_started_ms: u64) -> Stepped
        ensures { result ≡ opening config boot_started_ms }
    {
        let opened = Opened {
            manager: EscManager::new(config, boot_started_ms),
            books: Books::new(),
        };
        opened.answered(Answer::Done)
    }

    // The step of a record of any kind, 00 to 0e, from what the record before left.
    #[tactic(auto, unfolding(crate::specs::Step::step_of))]
    pub fn step(self, record: Record) -> Stepped
        ensures { result ≡ step_of self.manager self.books «record» }
    {
        match record {
            Record::Open {
                config,
                boot_started_ms,
            } => Opened::start(config, boot_started_ms),
            Record::NextRequest { now_ms } => self.next_request(now_ms),
            Record::MarkRequestQueued { request, now_ms } => {
                self.mark_request_queued(request, now_ms)
            }
            Record::ActuatorAck { ack, now_ms } => self.on_actuator_ack(ack, now_ms),
            Record::PollTimeout { now_ms } => self.poll_timeout(now_ms),
            Record::WireByte {
                byte,
                observed_at_ms,
            } => self.push_wire_byte(byte, observed_at_ms),
            Record::WireDiscontinuity => self.record_wire_discontinuity(),
            Record::TryRecover { armed, now_ms } => self.try_recover(armed, now_ms),
            Record::TakeBackAfterRetries => self.take_back_after_retries(),
            Record::RefreshWireStats => self.refresh_wire_stats(),
            Record::IdleCheck {
                config,
                started_at_ms,
            } => self.idle_check(config, started_at_ms),
            Record::IdleStatus { now_ms } => self.idle_status(now_ms),
            Record::Report => self.report(),
            Record::StoredSample { output } => self.stored_sample(output),
            Record::Figures { output } => self.figures(output),
        }
    }

    fn answered(self, answer: Answer) -> Stepped
        ensures { result ≡ stepped self.manager self.books answer }
    {
        Stepped {
            opened: self,
            answer,
        }
    }
}
