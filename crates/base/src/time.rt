// Times in milliseconds, on a clock of 64 bits that wraps.
ghost use Rattle.std.specs.Prelude.{◌≡◌};
ghost use Rattle.base.specs.Due.{due};

// Whether duration_ms have gone by since start_ms. A now_ms before start_ms counts as long elapsed.
#[tactic(auto, unfolding(crate::specs::Due::due))]
pub fn elapsed_at_least(start_ms: u64, now_ms: u64, duration_ms: u32) -> bool
    ensures { result ≡ due start_ms now_ms duration_ms }
{
    u64::from(duration_ms) <= now_ms.wrapping_sub(start_ms)
}
