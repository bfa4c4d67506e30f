// Requests, and the samples that answer them.
ghost use Rattle.blheli_telemetry.specs.Frame.{payload_of};
ghost use Rattle.esc_answers.specs.Answer.{request_bytes, sample_bytes};

use crate::answer_bytes::AnswerBytes;
use crate::part::Encode;
use blheli_telemetry::EscTelemetry;
use esc_lanes::{EscActuatorRequest, EscTelemetryUpdate};

impl Encode for EscActuatorRequest {
    ghost bytes = { request_bytes };

    #[tactic(auto, unfolding(crate::specs::Answer::request_bytes))]
    fn encode(self, to: &mut AnswerBytes) {
        self.sequence.encode(to);
        self.output.encode(to);
    }
}

impl Encode for EscTelemetryUpdate {
    ghost bytes = { sample_bytes };

    #[tactic(auto, unfolding(crate::specs::Answer::sample_bytes))]
    fn encode(self, to: &mut AnswerBytes) {
        let observation = self.observation;
        self.output.encode(to);
        observation.request_sequence.encode(to);
        observation.observed_at_ms.encode(to);
        observation.sample.encode(to);
    }
}

impl Encode for EscTelemetry {
    ghost bytes = { payload_of };

    #[tactic(auto, unfolding(blheli_telemetry::specs::Frame::payload_of))]
    fn encode(self, to: &mut AnswerBytes) {
        self.temperature_c.encode(to);
        self.voltage_cv.encode(to);
        self.current_ca.encode(to);
        self.consumption_mah.encode(to);
        self.erpm_div100.encode(to);
    }
}
