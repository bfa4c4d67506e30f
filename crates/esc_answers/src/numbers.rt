// Numbers, highest byte first, and what a byte tells: a flag or a lane.
ghost use Rattle.std.specs.Prelude.{[], ◌∷◌};
ghost use Rattle.base.specs.BigEndian.{bytes_of};
ghost use Rattle.esc_lanes.specs.Output.{lane_of};
ghost use Rattle.esc_answers.specs.Answer.{flag_byte};

use crate::answer_bytes::AnswerBytes;
use crate::part::Encode;
use esc_lanes::EscOutput;

impl Encode for u8 {
    ghost bytes = { bytes_of 1 };

    #[tactic(auto, unfolding(base::specs::BigEndian::bytes_of))]
    fn encode(self, to: &mut AnswerBytes) {
        to.push(self);
    }
}

impl Encode for u16 {
    ghost bytes = { bytes_of 2 };

    #[tactic(auto, unfolding(base::specs::BigEndian::bytes_of))]
    fn encode(self, to: &mut AnswerBytes) {
        to.extend_from_slice(&self.to_be_bytes());
    }
}

impl Encode for u32 {
    ghost bytes = { bytes_of 4 };

    #[tactic(auto, unfolding(base::specs::BigEndian::bytes_of))]
    fn encode(self, to: &mut AnswerBytes) {
        to.extend_from_slice(&self.to_be_bytes());
    }
}

impl Encode for u64 {
    ghost bytes = { bytes_of 8 };

    #[tactic(auto, unfolding(base::specs::BigEndian::bytes_of))]
    fn encode(self, to: &mut AnswerBytes) {
        to.extend_from_slice(&self.to_be_bytes());
    }
}

impl Encode for bool {
    ghost bytes = { λ flag. flag_byte flag ∷ [] };

    fn encode(self, to: &mut AnswerBytes) {
        to.push(u8::from(self));
    }
}

impl Encode for EscOutput {
    ghost bytes = { λ output. lane_of output ∷ [] };

    fn encode(self, to: &mut AnswerBytes) {
        to.push(u8::from(self));
    }
}
