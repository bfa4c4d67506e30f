// What came of a call, told by a first byte: a sample, an acknowledgement's outcome, a timeout, the idle status.
ghost use Rattle.esc_answers.specs.Answer.{ack_bytes, timeout_bytes, wire_bytes, idle_bytes, failure_bytes};

use crate::answer::{AckAnswer, Delivered};
use crate::answer_bytes::AnswerBytes;
use crate::part::Encode;
use esc_feedback::EscManagerTimeout;
use esc_idle::{EscIdleQualificationFailure, EscIdleQualificationStatus};

// 00 none, or 02, the sample and what the idle check says to it.
impl Encode for Option<Delivered> {
    ghost bytes = { wire_bytes };

    // Samples are inlined, here and in `AckAnswer`, since the place of each byte is then known: a session delivers one every few lines.
    #[inline(always)]
    #[tactic(auto, unfolding(crate::specs::Answer::wire_bytes, crate::specs::Answer::delivered_bytes))]
    fn encode(self, to: &mut AnswerBytes) {
        match self {
            None => to.push(0x00),
            Some(delivered) => {
                to.push(0x02);
                delivered.update.encode(to);
                delivered.status.encode(to);
            }
        }
    }
}

// 00 rejected, 01 accepted, or a sample as 05 tells it.
impl Encode for AckAnswer {
    ghost bytes = { ack_bytes };

    #[inline(always)]
    #[tactic(auto, unfolding(crate::specs::Answer::ack_bytes, crate::specs::Answer::wire_bytes))]
    fn encode(self, to: &mut AnswerBytes) {
        match self {
            AckAnswer::Rejected => to.push(0x00),
            AckAnswer::Accepted => to.push(0x01),
            AckAnswer::Sample(delivered) => Some(delivered).encode(to),
        }
    }
}

// 00 none, or 01 acknowledgement or 02 response timeout, and the request.
impl Encode for Option<EscManagerTimeout> {
    ghost bytes = { timeout_bytes };

    #[tactic(auto, unfolding(crate::specs::Answer::timeout_bytes))]
    fn encode(self, to: &mut AnswerBytes) {
        match self {
            None => to.push(0x00),
            Some(EscManagerTimeout::ActuatorAck(request)) => {
                to.push(0x01);
                request.encode(to);
            }
            Some(EscManagerTimeout::TelemetryResponse(request)) => {
                to.push(0x02);
                request.encode(to);
            }
        }
    }
}

// 00 no check, 01 pending, 02 qualified, or a failure.
impl Encode for Option<EscIdleQualificationStatus> {
    ghost bytes = { idle_bytes };

    #[tactic(auto, unfolding(crate::specs::Answer::idle_bytes))]
    fn encode(self, to: &mut AnswerBytes) {
        match self {
            None => to.push(0x00),
            Some(EscIdleQualificationStatus::Pending) => to.push(0x01),
            Some(EscIdleQualificationStatus::Qualified) => to.push(0x02),
            Some(EscIdleQualificationStatus::Failed(failure)) => failure.encode(to),
        }
    }
}

// 03 invalid settings, 04 overspeed, 05 timeout.
impl Encode for EscIdleQualificationFailure {
    ghost bytes = { failure_bytes };

    #[tactic(auto, using(crate::proofs::AnswerLaws::four_counts), unfolding(crate::specs::Answer::failure_bytes))]
    fn encode(self, to: &mut AnswerBytes) {
        match self {
            EscIdleQualificationFailure::InvalidConfig => to.push(0x03),
            EscIdleQualificationFailure::Overspeed {
                output,
                erpm_div100,
            } => {
                to.push(0x04);
                output.encode(to);
                erpm_div100.encode(to);
            }
            EscIdleQualificationFailure::Timeout {
                consecutive_samples,
            } => {
                to.push(0x05);
                to.extend_from_slice(&consecutive_samples);
            }
        }
    }
}
