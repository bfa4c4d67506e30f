// What an answer is made of: each part puts its bytes behind those of the parts before it.
ghost use Rattle.std.specs.Prelude.{◌≡◌, ℕ, ◌+◌, ◌≤◌, List, ◌++◌, length};
ghost use Rattle.esc_answers.specs.Answer.{longest_answer, optional_bytes};
ghost use Rattle.esc_answers.specs.Encoded.{encoded_of};

use crate::answer_bytes::AnswerBytes;

// A part. No other crate names it: callers have `encode`, which makes whole answers.
pub trait Encode {
    ghost bytes: { Self → List ℕ };

    // Puts the part's bytes behind those that are there.
    fn encode(self, to: &mut AnswerBytes)
        requires { length (encoded_of to.old) + length (bytes self) ≤ longest_answer }
        ensures { encoded_of to.new ≡ encoded_of to.old ++ bytes self };
}

// 00 none, or 01 and what there is. What has numbers of its own for that is in `outcomes`.
impl<T: Encode> Encode for Option<T> {
    ghost bytes = { optional_bytes T.bytes };

    fn encode(self, to: &mut AnswerBytes) {
        match self {
            None => to.push(0x00),
            Some(value) => {
                to.push(0x01);
                value.encode(to);
            }
        }
    }
}
