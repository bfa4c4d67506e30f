// What the manager counts. Its own seven counts wrap at 2^32; the three of the wire are the parser's.
ghost use Rattle.std.specs.Prelude.{◌≡◌};
ghost use Rattle.esc_feedback.specs.Stats.{no_stats};

use blheli_telemetry::ParserStats;

#[derive(Clone, Copy, Default)]
pub struct EscManagerStats {
    pub requests_queued: u32,
    pub requests_started: u32,
    pub actuator_ack_timeouts: u32,
    pub telemetry_response_timeouts: u32,
    pub mismatched_acks: u32,
    pub unsolicited_frames: u32,
    // Times telemetry resumed after a timeout.
    pub recoveries: u32,
    pub wire: ParserStats,
}

impl EscManagerStats {
    // Nothing counted.
    pub fn new() -> Self
        ensures { result ≡ no_stats }
    {
        Self::default()
    }
}
