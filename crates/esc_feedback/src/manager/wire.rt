// The wire: bytes, and the frames that they make.
ghost use Rattle.std.specs.Prelude.{◌≡◌};
ghost use Rattle.esc_feedback.specs.Wire.{push_wire, frame_taken, cut_wire, refreshed};

use crate::answer::After;
use crate::manager::EscManager;
use crate::pending::PendingRequest;
use blheli_telemetry::EscTelemetry;
use esc_lanes::EscTelemetryUpdate;

impl EscManager {
    // 05: a byte from the wire; one that ends a frame may answer the open request.
    #[tactic(auto, unfolding(crate::specs::Wire::push_wire, crate::specs::Wire::received_on))]
    pub fn push_wire_byte(self, byte: u8, observed_at_ms: u64) -> After<Option<EscTelemetryUpdate>>
        ensures { result ≡ push_wire self byte observed_at_ms }
    {
        let pushed = self.parser.pushed(byte);
        let manager = Self {
            fault: self.fault.heard(observed_at_ms),
            parser: pushed.parser,
            ..self
        };
        let Some(sample) = pushed.parsed else {
            return After {
                manager,
                answer: None,
            };
        };
        manager.refresh_wire_stats().framed(sample, observed_at_ms)
    }

    // A frame: held for a request that is not yet acknowledged, the sample of one that is, and
    // unsolicited where nothing is open.
    #[tactic(auto, unfolding(crate::specs::Wire::framed_on))]
    fn framed(self, sample: EscTelemetry, observed_at_ms: u64) -> After<Option<EscTelemetryUpdate>>
        ensures { result ≡ frame_taken self sample observed_at_ms }
    {
        let mut manager = self;
        match self.pending {
            None => {
                manager.stats.unsolicited_frames = self.stats.unsolicited_frames.wrapping_add(1);
                After {
                    manager,
                    answer: None,
                }
            }
            Some(
                PendingRequest::Queued {
                    request,
                    queued_at_ms,
                    early: _,
                },
            ) => {
                let update = request.answered(sample, observed_at_ms);
                manager.pending = Some(PendingRequest::Queued {
                    request,
                    queued_at_ms,
                    early: Some(update.observation),
                });
                After {
                    manager,
                    answer: None,
                }
            }
            Some(PendingRequest::Started { request, .. }) => After {
                manager: manager.delivered(),
                answer: Some(request.answered(sample, observed_at_ms)),
            },
        }
    }

    // The wire was cut: what follows is no continuation of the bytes held.
    pub fn record_wire_discontinuity(self) -> EscManager
        ensures { result ≡ cut_wire self }
    {
        Self {
            parser: self.parser.emptied(),
            ..self
        }
    }

    // 09: the parser's counts are copied into the manager's; otherwise only a sample renews them.
    pub fn refresh_wire_stats(self) -> EscManager
        ensures { result ≡ refreshed self }
    {
        let mut manager = self;
        manager.stats.wire = self.parser.stats();
        manager
    }
}
