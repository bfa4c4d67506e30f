// A count that stops at the largest u32.
ghost use Rattle.std.specs.Prelude.{◌≡◌};
ghost use Rattle.base.specs.Saturated.{saturated};

// One more, or the same at the largest: a count that is full does not start anew.
pub fn saturating_inc(count: u32) -> u32
    ensures { result ≡ saturated count }
{
    count.saturating_add(1)
}
