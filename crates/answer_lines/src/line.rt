// A line of answers, read character by character in constant memory: no more is held of it than the longest answer has.
ghost use Rattle.std.specs.Prelude.{◌≡◌, ◌≤◌, take};
ghost use Rattle.esc_answers.specs.Answer.{longest_answer};
ghost use Rattle.answer_lines.specs.AnswerLine.{Kept, nothing_kept, with_byte, with_character, any_taken, told_at_end};

use crate::told::Told;
use esc_answers::LONGEST_ANSWER;
use hex_lines::digits::Digits;
use std::marker::Model;

// A line so far. It holds the table of digits too, which is made once, so that a caller need know nothing of digits.
#[derive(Drop)]
pub struct AnswerLine {
    digits: Digits,
    bytes: [u8; LONGEST_ANSWER],
    count: usize,
    begun: Option<u8>,
    faulty: bool,
}

// Its bytes, the character that begins the next, and whether it is no answer's line whatever follows.
impl Model for AnswerLine {
    ghost Value = { Kept };

    ghost view = { λ r. record { bytes = take r.count r.bytes; begun = r.begun; faulty = r.faulty } };

    ghost invariant = { λ r. r.count ≤ longest_answer };
}

impl AnswerLine {
    // No character taken.
    pub fn new() -> Self
        ensures { result ≡ nothing_kept }
    {
        Self {
            digits: Digits::new(),
            bytes: [0x00; LONGEST_ANSWER],
            count: 0,
            begun: None,
            faulty: false,
        }
    }

    // Takes the next character of the line, which is any but LF.
    #[tactic(auto, unfolding(crate::specs::AnswerLine::with_character))]
    pub fn take(&mut self, character: u8)
        ensures { self.new ≡ with_character self.old character }
    {
        let Some(first) = self.begun else {
            self.begun = Some(character);
            return;
        };
        let byte = self.digits.pair(first, character);
        self.put(byte);
    }

    // Whether a character was taken since the line's start.
    #[tactic(auto, unfolding(crate::specs::AnswerLine::any_taken))]
    pub fn is_begun(&self) -> bool
        ensures { result ≡ any_taken self.now }
    {
        self.faulty || self.begun.is_some() || self.count > 0
    }

    // Ends the line, at LF or at the end of the input: what it tells. Then the next begins.
    #[tactic(auto, unfolding(crate::specs::AnswerLine::told_at_end))]
    pub fn end(&mut self) -> Told
        ensures value { result ≡ told_at_end self.old }
        ensures after { self.new ≡ nothing_kept }
    {
        let whole = !self.faulty && self.begun.is_none();
        let line = if whole {
            Told::by(&self.bytes[..self.count])
        } else {
            Told::NoAnswer
        };
        self.count = 0;
        self.begun = None;
        self.faulty = false;
        line
    }

    // Puts the byte of two characters behind those that are there. Where there is none, or no room, the line is faulty.
    #[tactic(auto, unfolding(crate::specs::AnswerLine::with_byte))]
    fn put(&mut self, byte: Option<u8>)
        ensures { self.new ≡ with_byte self.old byte }
    {
        self.begun = None;
        match byte {
            Some(byte) if self.count < LONGEST_ANSWER => {
                self.bytes[self.count] = byte;
                self.count += 1;
            }
            _ => self.faulty = true,
        }
    }
}
