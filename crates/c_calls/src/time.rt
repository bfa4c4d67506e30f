// Due, on a clock of 64 bits that wraps.
ghost use Rattle.std.specs.Prelude.{◌≡◌};
ghost use Rattle.base.specs.Due.{due};

use base::elapsed_at_least;

// Due, for a caller that must judge a time exactly as the unit does.
#[unsafe(no_mangle)]
pub extern "C" fn esc_elapsed_at_least(start_ms: u64, now_ms: u64, duration_ms: u32) -> bool
    ensures { result ≡ due start_ms now_ms duration_ms }
{
    elapsed_at_least(start_ms, now_ms, duration_ms)
}
