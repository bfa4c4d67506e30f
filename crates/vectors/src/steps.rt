// Unit::step: a record in, its answer out.
use crate::calls::front;
use crate::print::{Hex, Refused};
use base::Refusal;
use esc_answers::{Answer, LONGEST_ANSWER, write_answer};
use esc_records::read_record;
use esc_unit::Unit;

// The answer of a step is printed; a record that can't be read is no step.
pub fn step(rt: &impl Print, unit: Unit, bytes: &[u8]) {
    let Ok(record) = read_record(bytes) else {
        return;
    };
    match unit.step(record).reply {
        Ok(answer) => written(rt, answer),
        Err(refusal) => refused(rt, refusal),
    }
}

fn written(rt: &impl Print, answer: Answer) {
    let mut out = [0u8; LONGEST_ANSWER];
    match write_answer(answer, &mut out) {
        Ok(n) => {
            let _ = println!(rt; "step: {}", Hex(front(&out, n)));
        }
        Err(refusal) => refused(rt, refusal),
    }
}

fn refused(rt: &impl Print, refusal: Refusal) {
    let _ = println!(rt; "step: {}", Refused(refusal));
}
