// A call: a record's bytes in, its answer's bytes out, and every refusal in the order of its number.
ghost use Rattle.std.specs.Prelude.{◌≡◌, length};
ghost use Rattle.base.specs.Reply.{accepted, replied};
ghost use Rattle.esc_unit.specs.Unit.{call_on, call_of, output_after, length_of};

use crate::unit::{Called, Unit};
use base::Refusal;
use esc_answers::write_answer;
use esc_records::{Record, admit};

impl Unit {
    // Writes the answer to the record of the bytes at the start of out, and says how long it is. A refusal leaves the unit and out as found.
    #[tactic(auto, using(crate::proofs::UnitLaws::call_admission), unfolding(crate::specs::Unit::output_after))]
    pub fn call(self, bytes: &[u8], out: &mut [u8]) -> Called<usize>
        ensures unit_value { result.unit ≡ (call_of self bytes.now (length out.old)).unit }
        ensures reply_value { replied result.reply ≡ length_of (call_of self bytes.now (length out.old)).reply }
        ensures out_after { out.new ≡ output_after (call_of self bytes.now (length out.old)).reply out.old }
    {
        match admit(self.opened.is_some(), bytes) {
            Ok(known) => self.answered(known, out),
            Err(refusal) => self.refused(refusal),
        }
    }

    // The call, once its record is known: its answer, where there is room for it.
    #[tactic(auto, unfolding(crate::specs::Unit::output_after, base::specs::Handed::handed_reply, base::specs::Handed::handed_output))]
    fn answered(self, known: Record, out: &mut [u8]) -> Called<usize>
        ensures unit_value { result.unit ≡ (call_on self (length out.old) (accepted known)).unit }
        ensures reply_value { replied result.reply ≡ length_of (call_on self (length out.old) (accepted known)).reply }
        ensures out_after { out.new ≡ output_after (call_on self (length out.old) (accepted known)).reply out.old }
    {
        let called = self.step(known);
        match called.reply {
            Ok(answer) => match write_answer(answer, out) {
                Ok(count) => Called {
                    unit: called.unit,
                    reply: Ok(count),
                },
                Err(no_room) => self.refused(no_room),
            },
            Err(refusal) => called.unit.refused(refusal),
        }
    }

    fn refused(self, refusal: Refusal) -> Called<usize>
        ensures { result ≡ record { unit = self; reply = Err refusal } }
    {
        Called {
            unit: self,
            reply: Err(refusal),
        }
    }
}
