// What the bytes of an answer tell.
ghost use Rattle.std.specs.Prelude.{◌≡◌, ◌≢◌, length};
ghost use Rattle.answer_lines.specs.Form.{fits_one, deliveries, other_answers};
ghost use Rattle.answer_lines.specs.Told.{told_by};

use esc_answers::LONGEST_ANSWER;
use lent_samples::SAMPLE_LEN;

// The place of a delivered sample, behind 00 02.
const SAMPLE_AT: usize = 2;

// The place of the idle status, behind the sample.
const STATUS_AT: usize = SAMPLE_AT + SAMPLE_LEN;

// What a line of answers tells to a program that makes sheets of the delivered samples.
#[derive(Clone, Copy)]
pub enum Told {
    // A delivered sample: L, S, observed T and nine payload bytes.
    Sample([u8; SAMPLE_LEN]),
    // Any other answer, a stored sample shown again among them.
    Other,
    // These bytes are no answer, and no refusal's number.
    NoAnswer,
}

impl Told {
    // What bytes tell: the sample where they are an answer that delivers one.
    #[tactic(auto, unfolding(crate::specs::Told::told_by), using(crate::proofs::FormLaws::delivery_long))]
    pub fn by(bytes: &[u8]) -> Told
        ensures { result ≡ told_by bytes.now }
    {
        if is_delivery(bytes) {
            let mut sample = [0x00; SAMPLE_LEN];
            sample.copy_from_slice(&bytes[SAMPLE_AT..STATUS_AT]);
            Told::Sample(sample)
        } else if is_other_answer(bytes) {
            Told::Other
        } else {
            Told::NoAnswer
        }
    }
}

// Whether bytes are an answer that delivers a sample: 00 02, the sample, whose first byte is its lane, and an idle status.
#[tactic(auto, unfolding(crate::specs::Form::has_form, crate::specs::Form::fits_one))]
fn is_delivery(bytes: &[u8]) -> bool
    ensures { result ≡ fits_one deliveries bytes.now }
{
    let [0x00, 0x02, 0x00..=0x03, ..] = bytes else {
        return false;
    };
    match bytes.get(STATUS_AT..) {
        Some([0x00..=0x03]) => true,
        Some([0x04, 0x00..=0x03, _, _]) => true,
        Some([0x05, _, _, _, _]) => true,
        _ => false,
    }
}

// Whether bytes are any other answer.
#[tactic(auto, unfolding(crate::specs::Form::has_form, crate::specs::Form::fits_one))]
fn is_other_answer(bytes: &[u8]) -> bool
    ensures { result ≡ fits_one other_answers bytes.now }
{
    match bytes.len() {
        STATUS_AT => matches!(bytes, [0x00, 0x01, 0x00..=0x03, ..]),
        LONGEST_ANSWER => matches!(bytes, [0x00, 0x00..=0x01, 0x00..=0x01, ..]),
        _ => is_short_answer(bytes),
    }
}

// The same of bytes that are no stored sample and no report.
#[tactic(auto, unfolding(crate::specs::Form::has_form, crate::specs::Form::fits_one))]
fn is_short_answer(bytes: &[u8]) -> bool
    ensures { length bytes.now ≢ 24 → length bytes.now ≢ 43 → result ≡ fits_one other_answers bytes.now }
{
    match bytes {
        [0x00..=0x0c] => true,
        [0x00, 0x00..=0x03] => true,
        [0x00, 0x04, 0x00..=0x03, _, _] => true,
        [0x00, 0x01 | 0x05, _, _, _, _] => true,
        [0x00, 0x01 | 0x02, _, _, _, _, 0x00..=0x03] => true,
        [0x00, _, _, _, _, _, _, _] => true,
        _ => false,
    }
}
