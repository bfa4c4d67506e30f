// Unit::call: a record's bytes in, its answer's bytes out.
use crate::print::{Hex, Refused};
use esc_answers::LONGEST_ANSWER;
use esc_unit::Unit;

// What stands in the output before a call.
const FOUND: u8 = 0xa5;

// The unit after a call, which is printed with its answer or the number of the refusal; a room that is less than any answer
// takes is printed as the call left it.
pub fn call(rt: &impl Print, unit: Unit, room: usize, record: &[u8]) -> Unit {
    let mut buffer = [FOUND; LONGEST_ANSWER];
    let out = &mut buffer[..room.min(LONGEST_ANSWER)];
    let called = unit.call(record, out);
    let _ = print!(rt; "call {}: ", Hex(record));
    let _ = match called.reply {
        Ok(n) => print!(rt; "{}", Hex(front(out, n))),
        Err(refusal) => print!(rt; "{}", Refused(refusal)),
    };
    if out.len() < LONGEST_ANSWER {
        let _ = print!(rt; ", room {}", Hex(out));
    }
    let _ = println!(rt; "");
    called.unit
}

// The first n bytes.
pub fn front(bytes: &[u8], n: usize) -> &[u8] {
    bytes.get(..n).unwrap_or(bytes)
}
