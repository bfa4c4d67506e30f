// Answers, each printed on a line of its own.
ghost use Rattle.std.specs.Prelude.{[], ◌∷◌, ◌+◌, ◌≤◌, ◌≡◌, length};
ghost use Rattle.base.specs.Reply.{refusal_number, replied};
ghost use Rattle.esc_answers.specs.Answer.{flag_byte, reply_bytes};
ghost use Rattle.esc_answers.specs.Encoded.{encoded_of};
ghost use Rattle.unit_text.specs.Answering.{LinePut};
ghost use Rattle.unit_text.specs.Stream.{longest_line};

use base::Refusal;
use esc_answers::{Answer, AnswerBytes, encode};
use esc_unit::{Called, Unit};
use hex_lines::line::print_line;

pub(crate) fn print_answer(answer: &AnswerBytes, out: &mut [u8], at: usize) -> usize
    requires { at + longest_line ≤ length out.old }
    ensures { LinePut (encoded_of answer.now) at out.old result out.new }
{
    print_line(answer.as_slice(), out, at)
}

// 00 and a yes or a no: of 02, of a 03 that delivers nothing, and as a no of a 05.
pub(crate) fn print_flag(yes: bool, out: &mut [u8], at: usize) -> usize
    requires { at + longest_line ≤ length out.old }
    ensures { LinePut (0x00 ∷ flag_byte yes ∷ []) at out.old result out.new }
{
    print_line(&[0x00, u8::from(yes)], out, at)
}

pub(crate) fn print_refusal(refusal: Refusal, out: &mut [u8], at: usize) -> usize
    requires { at + longest_line ≤ length out.old }
    ensures { LinePut (refusal_number refusal ∷ []) at out.old result out.new }
{
    print_line(&[u8::from(refusal)], out, at)
}

// Stores the unit that a call left, and prints its reply. It is not inlined, so that its caller's loop keeps the unit in one place in
// memory, and does not put it together at each call (docs/PERFORMANCE.md).
#[inline(never)]
#[tactic(auto, unfolding(esc_answers::specs::Answer::reply_bytes))]
pub(crate) fn print_called(
    called: Called<Answer>,
    unit: &mut Unit,
    out: &mut [u8],
    at: usize,
) -> usize
    requires { at + longest_line ≤ length out.old }
    ensures left { unit.new ≡ called.unit }
    ensures printed { LinePut (reply_bytes (replied called.reply)) at out.old result out.new }
{
    *unit = called.unit;
    match called.reply {
        Ok(answer) => print_answer(&encode(answer), out, at),
        Err(refusal) => print_refusal(refusal, out, at),
    }
}
