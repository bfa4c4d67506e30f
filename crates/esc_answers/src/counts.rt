// Counts and figures.
ghost use Rattle.esc_answers.specs.Answer.{parser_bytes, stats_bytes, report_bytes, figure_bytes};

use crate::answer::{Figure, UnitReport};
use crate::answer_bytes::AnswerBytes;
use crate::part::Encode;
use blheli_telemetry::ParserStats;
use esc_feedback::EscManagerStats;

impl Encode for UnitReport {
    ghost bytes = { report_bytes };

    #[tactic(auto, unfolding(crate::specs::Answer::report_bytes))]
    fn encode(self, to: &mut AnswerBytes) {
        self.faulted.encode(to);
        self.retrying.encode(to);
        self.stats.encode(to);
    }
}

impl Encode for EscManagerStats {
    ghost bytes = { stats_bytes };

    fn encode(self, to: &mut AnswerBytes) {
        self.requests_queued.encode(to);
        self.requests_started.encode(to);
        self.actuator_ack_timeouts.encode(to);
        self.telemetry_response_timeouts.encode(to);
        self.mismatched_acks.encode(to);
        self.unsolicited_frames.encode(to);
        self.recoveries.encode(to);
        self.wire.encode(to);
    }
}

impl Encode for ParserStats {
    ghost bytes = { parser_bytes };

    fn encode(self, to: &mut AnswerBytes) {
        self.valid_frames.encode(to);
        self.crc_failures.encode(to);
        self.discarded_bytes.encode(to);
    }
}

impl Encode for Figure {
    ghost bytes = { figure_bytes };

    #[tactic(auto, unfolding(crate::specs::Answer::figure_bytes))]
    fn encode(self, to: &mut AnswerBytes) {
        self.samples.encode(to);
        self.hottest_c.encode(to);
        self.lowest_cv.encode(to);
    }
}
