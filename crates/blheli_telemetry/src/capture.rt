// Finding a frame in a capture of the wire.
ghost use Rattle.std.specs.Prelude.{◌≡◌};
ghost use Rattle.blheli_telemetry.specs.Capture.{good, first_frame};

use crate::frame::{FRAME_LEN, decode};

// Where the first good frame starts in a capture, for a reader that has no stream to parse.
#[tactic(auto, using(crate::proofs::CaptureLaws::first_good))]
pub fn find_frame(capture: &[u8]) -> Option<usize>
    ensures { result ≡ first_frame capture.now }
{
    for (start, window) in capture.windows(FRAME_LEN).enumerate() {
        if is_good(window) {
            return Some(start);
        }
    }
    None
}

fn is_good(frame: &[u8]) -> bool
    ensures { result ≡ good frame.now }
{
    decode(frame).is_ok()
}
