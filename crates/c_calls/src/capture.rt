// Finding a frame in a capture of the wire.
ghost use Rattle.std.specs.Prelude.{◌≡◌, length, unwrap_or};
ghost use Rattle.blheli_telemetry.specs.Capture.{first_frame};

use blheli_telemetry::find_frame;

// Where the first good frame starts; the capture's length, which is no start, where there is none.
#[unsafe(no_mangle)]
pub extern "C" fn esc_find_frame(capture: &[u8]) -> usize
    ensures { result ≡ unwrap_or (first_frame capture.now) (length capture.now) }
{
    find_frame(capture).unwrap_or(capture.len())
}
