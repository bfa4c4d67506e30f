// A session fed in chunks of any size. Between two chunks it keeps the unit and the start of the line
// that is not ended: the same memory for a line of any width.
ghost use Rattle.std.specs.Prelude.{◌≡◌, length};
ghost use Rattle.base.specs.Handed.{handed_reply, handed_output};
ghost use Rattle.base.specs.Reply.{replied};
ghost use Rattle.unit_text.specs.Stream.{at_start, feed_of, fed_output, printed_at_end};
ghost use Rattle.unit_text.specs.Streams.{streamed, fed};

use crate::answer::{print_answer, print_called, print_flag, print_refusal};
use base::{Refusal, hand};
use esc_answers::{AckAnswer, Delivered, encode};
use esc_feedback::EscAckOutcome;
use esc_kinds::Opened;
use esc_records::Record;
use esc_unit::Unit;
use hex_lines::digits::Digits;
use hex_lines::held_line::HeldLine;
use hex_lines::line::LINE_END;
use record_lines::next_record::next_admitted;
use record_lines::wire_line::{WIRE_LINE, collected_if_opened};

// As much as any printed line takes.
pub const LONGEST_LINE: usize = 87;

#[derive(Clone, Copy)]
pub struct Stream {
    unit: Unit,
    line: HeldLine,
}

// The stream after what was used of a chunk, and how much was written.
#[derive(Clone, Copy)]
pub struct Fed {
    pub stream: Stream,
    pub used: usize,
    pub written: usize,
}

impl Stream {
    // A unit that was never opened, and no line begun.
    pub fn new() -> Self
        ensures { streamed result ≡ at_start }
    {
        Self {
            unit: Unit::new(),
            line: HeldLine::new(),
        }
    }

    // Answers the lines of a chunk from the first entry of `out` on. It goes on as long as `out` has room
    // for any line more, so with an output of LONGEST_LINE it uses something of every chunk.
    pub fn feed(self, chunk: &[u8], out: &mut [u8]) -> Fed
        ensures result_value { fed result ≡ feed_of (streamed self) chunk.now (length out.old) }
        ensures out_after { out.new ≡ fed_output (streamed self) chunk.now out.old }
    {
        let digits = Digits::new();
        // The unit's parts are changed where they stand, and the kinds of a flight are arms of this loop, so that a line moves
        // only what it touches: with an arm in a function of its own the whole takes longer (docs/PERFORMANCE.md).
        let mut unit = self.unit;
        let mut line = self.line;
        let mut used: usize = 0;
        let mut written: usize = 0;
        while used < chunk.len() && LONGEST_LINE <= out.len() - written {
            // A byte that the parser only collects stands in its line, and is taken from there.
            if let Some(Opened { manager, .. }) = &mut unit.opened {
                let parser = manager.parser;
                if let Some(wire) = collected_if_opened(
                    &digits,
                    &chunk[used..],
                    line.len(),
                    true,
                    parser,
                ) {
                    manager.parser = parser.collected(wire.byte);
                    manager.fault = manager.fault.heard(wire.at_ms);
                    written = print_flag(false, out, written);
                    used += WIRE_LINE + 1;
                    continue;
                }
            }
            // Else the next line is read, or what the chunk has of it is held for the next chunk.
            let opened = unit.opened.is_some();
            let Some(ended) = next_admitted(&digits, &chunk[used..], &mut line, opened) else {
                used = chunk.len();
                break;
            };
            used += ended.behind;
            let record = match ended.record {
                Ok(record) => record,
                Err(refusal) => {
                    written = print_refusal(refusal, out, written);
                    continue;
                }
            };
            match (&mut unit.opened, record) {
                (Some(Opened { manager, .. }), Record::NextRequest { now_ms }) => {
                    let request = manager.next_request(now_ms);
                    written = print_answer(&encode(request), out, written);
                }
                (Some(Opened { manager, .. }), Record::MarkRequestQueued { request, now_ms }) => {
                    let marked = manager.mark_request_queued(request, now_ms);
                    *manager = marked.manager;
                    written = print_flag(marked.answer, out, written);
                }
                (Some(Opened { manager, books }), Record::ActuatorAck { ack, now_ms }) => {
                    let acked = manager.on_actuator_ack(ack);
                    *manager = acked.manager;
                    match acked.answer {
                        EscAckOutcome::Rejected => {
                            written = print_flag(false, out, written);
                        }
                        EscAckOutcome::Accepted => {
                            written = print_flag(true, out, written);
                        }
                        EscAckOutcome::Sample(update) => {
                            let booked = books.booked(update, now_ms);
                            *books = booked.books;
                            let sample = AckAnswer::Sample(Delivered {
                                update,
                                status: booked.status,
                            });
                            written = print_answer(&encode(sample), out, written);
                        }
                    }
                }
                (Some(Opened { manager, .. }), Record::PollTimeout { now_ms }) => {
                    let polled = manager.poll_timeout(now_ms);
                    *manager = polled.manager;
                    written = print_answer(&encode(polled.answer), out, written);
                }
                (
                    Some(Opened { manager, books }),
                    Record::WireByte {
                        byte,
                        observed_at_ms,
                    },
                ) => {
                    let received = manager.push_wire_byte(byte, observed_at_ms);
                    *manager = received.manager;
                    match received.answer {
                        None => {
                            written = print_flag(false, out, written);
                        }
                        Some(update) => {
                            let booked = books.booked(update, observed_at_ms);
                            *books = booked.books;
                            let sample = Some(Delivered {
                                update,
                                status: booked.status,
                            });
                            written = print_answer(&encode(sample), out, written);
                        }
                    }
                }
                // Any other kind goes by `step`.
                (Some(opened), record) => {
                    let stepped = opened.step(record);
                    *opened = stepped.opened;
                    written = print_answer(&encode(stepped.answer), out, written);
                }
                // Nothing but a 00 is taken before the first 00.
                (None, record) => {
                    let called = unit.step(record);
                    written = print_called(called, &mut unit, out, written);
                }
            }
        }
        // What is left for the next chunk.
        let stream = Stream { unit, line };
        Fed {
            stream,
            used,
            written,
        }
    }

    // Answers the line that the end of input ends, if there is one.
    #[tactic(auto, using(crate::proofs::FinishLaws::none_begun))]
    pub fn finish(self, out: &mut [u8]) -> Result<usize, Refusal>
        ensures result_value { replied result ≡ handed_reply (printed_at_end (streamed self)) (length out.old) }
        ensures out_after { out.new ≡ handed_output (printed_at_end (streamed self)) out.old }
    {
        if self.line.is_empty() {
            return Ok(0);
        }
        let mut text = [0u8; LONGEST_LINE];
        let fed = self.feed(&[LINE_END], &mut text);
        hand(&text[..fed.written], out)
    }
}
