// How often each motor stands among a map's bytes.
ghost use Rattle.std.specs.Prelude.{◌≡◌};
ghost use Rattle.airframe.specs.Once.{times, each_once};

#[tactic(auto, unfolding(crate::specs::Once::each_once))]
pub(crate) fn each_once(bytes: &[u8]) -> bool
    ensures { result ≡ each_once bytes.now }
{
    [1, 2, 3, 4].iter().all(|&motor| times(bytes, motor) == 1)
}

// A plain loop, since the compiler unrolls it over four bytes, and does not unroll a filter that is counted: with that the calls
// for C took twice the time.
fn times(bytes: &[u8], byte: u8) -> usize
    ensures { result ≡ times byte bytes.now }
{
    let mut found = 0;
    for &b in bytes {
        if b == byte {
            found += 1;
        }
    }
    found
}
