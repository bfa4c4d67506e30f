// The unit: nothing before its first 00, then one manager and its books. One call for each record.
mod call;

ghost use Rattle.std.specs.Prelude.{◌≡◌};
ghost use Rattle.esc_unit.specs.Unit.{never_opened, accepting, enter};
ghost use Rattle.esc_unit.specs.Replies.{step_replied};

use base::Refusal;
use esc_answers::Answer;
use esc_kinds::{Opened, Stepped};
use esc_records::Record;

// What was opened is public, so that a loop over records can change in place what a record touches.
#[derive(Clone, Copy)]
pub struct Unit {
    pub opened: Option<Opened>,
}

// The unit after a record, or as found where the record is refused; and the reply.
#[derive(Clone, Copy)]
pub struct Called<A> {
    pub unit: Unit,
    pub reply: Result<A, Refusal>,
}

impl Unit {
    // Never opened: it has no manager, since no record gave the settings of one.
    pub fn new() -> Self
        ensures { result ≡ never_opened }
    {
        Self { opened: None }
    }

    // Before the first 00 every other kind is refused.
    #[tactic(auto, unfolding(crate::specs::Unit::enter))]
    pub fn step(self, record: Record) -> Called<Answer>
        ensures { step_replied result ≡ enter self «record» }
    {
        match (self.opened, record) {
            (Some(opened), _) => accepted(opened.step(record)),
            (
                None,
                Record::Open {
                    config,
                    boot_started_ms,
                },
            ) => accepted(Opened::start(config, boot_started_ms)),
            (None, _) => Called {
                unit: self,
                reply: Err(Refusal::Unopened),
            },
        }
    }
}

// The unit that a step leaves, and its answer.
fn accepted(stepped: Stepped) -> Called<Answer>
    ensures { step_replied result ≡ accepting stepped }
{
    Called {
        unit: Unit {
            opened: Some(stepped.opened),
        },
        reply: Ok(stepped.answer),
    }
}
