// An answer's bytes in a lent output.
ghost use Rattle.std.specs.Prelude.{◌≡◌, length};
ghost use Rattle.base.specs.Handed.{handed_reply, handed_output};
ghost use Rattle.base.specs.Reply.{replied};
ghost use Rattle.esc_answers.specs.Answer.{answer_bytes};

use crate::answer::Answer;
use crate::body::encode;
use base::{Refusal, hand};

// Writes the answer at the start of out, and leaves the rest of it as it is.
pub fn write_answer(answer: Answer, out: &mut [u8]) -> Result<usize, Refusal>
    ensures result_value { replied result ≡ handed_reply (answer_bytes answer) (length out.old) }
    ensures out_after { out.new ≡ handed_output (answer_bytes answer) out.old }
{
    hand(encode(answer).as_slice(), out)
}
