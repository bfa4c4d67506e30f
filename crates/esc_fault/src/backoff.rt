// How often the quiet window doubles.
ghost use Rattle.std.specs.Prelude.{◌≡◌};

// Doublings of the recovery quiet window: 0.5 s grows to at most 4 s.
pub const ESC_RETRY_BACKOFF_STEPS: u32 = 3;

// `ESC_RETRY_BACKOFF_STEPS` with its value stated, for contracts.
pub fn esc_retry_backoff_steps() -> u32
    ensures { result ≡ 3 }
{
    ESC_RETRY_BACKOFF_STEPS
}
