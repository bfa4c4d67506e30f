// An answer: 00, and a body behind it.
ghost use Rattle.std.specs.Prelude.{◌≡◌, ◌∷◌};
ghost use Rattle.esc_answers.specs.Answer.{body_bytes, answer_bytes};
ghost use Rattle.esc_answers.specs.Body.{answer_says, next_says, ack_says, timeout_says, wire_says};
ghost use Rattle.esc_answers.specs.Encoded.{encoded_of};
ghost use Rattle.esc_answers.specs.declared.answer.Answer.{Answer};
ghost use Rattle.esc_answers.specs.declared.answer.Answer.TheVariants as answer;

use crate::answer::{AckAnswer, Answer, Delivered};
use crate::answer_bytes::AnswerBytes;
use crate::part::Encode;
use esc_feedback::EscManagerTimeout;
use esc_lanes::EscActuatorRequest;

// What stands behind an answer's 00, and which answer that is.
pub trait Body: Encode {
    ghost answer: { Self → Answer };

    ghost says: { (x : Self) → answer_bytes (answer x) ≡ 0x00 ∷ Self.bytes x };
}

// The bytes of an answer, told as what its variant holds where the caller knows the kind, so that no `Answer` is made first. It is
// inlined, so that an answer is read where the call that made it put it.
#[inline(always)]
pub fn encode<T: Body>(body: T) -> AnswerBytes
    ensures { encoded_of result ≡ answer_bytes (T.answer body) }
{
    let mut bytes = AnswerBytes::accepted();
    body.encode(&mut bytes);
    bytes
}

// A body is what the variant holds, and 00, 06, 09 and 0a have none.
impl Encode for Answer {
    ghost bytes = { body_bytes };

    #[tactic(auto, unfolding(crate::specs::Answer::body_bytes, crate::specs::Answer::next_bytes, crate::specs::Answer::back_bytes, crate::specs::Answer::stored_bytes))]
    fn encode(self, to: &mut AnswerBytes) {
        match self {
            Answer::Done => {}
            Answer::Request(request) => request.encode(to),
            Answer::Decided(yes) => yes.encode(to),
            Answer::Ack(ack) => ack.encode(to),
            Answer::Timeout(timeout) => timeout.encode(to),
            Answer::Wire(delivered) => delivered.encode(to),
            Answer::BackAfterRetries(retries) => retries.encode(to),
            Answer::Idle(status) => status.encode(to),
            Answer::Report(report) => report.encode(to),
            Answer::Stored(update) => update.encode(to),
            Answer::Figures(figure) => figure.encode(to),
        }
    }
}

impl Body for Answer {
    ghost answer = { λ a. a };

    ghost says = { answer_says };
}

impl Body for Option<EscActuatorRequest> {
    ghost answer = { answer.Request };

    ghost says = { next_says };
}

impl Body for AckAnswer {
    ghost answer = { answer.Ack };

    ghost says = { ack_says };
}

impl Body for Option<EscManagerTimeout> {
    ghost answer = { answer.Timeout };

    ghost says = { timeout_says };
}

impl Body for Option<Delivered> {
    ghost answer = { answer.Wire };

    ghost says = { wire_says };
}
