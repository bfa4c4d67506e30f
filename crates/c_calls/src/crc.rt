// The CRC of bytes.
ghost use Rattle.std.specs.Prelude.{◌≡◌};
ghost use Rattle.blheli_telemetry.specs.Crc.{crc_of};

use blheli_telemetry::crc8;

// The CRC of a frame's payload, for a caller that checks or makes frames itself.
#[unsafe(no_mangle)]
pub extern "C" fn esc_crc8(bytes: &[u8]) -> u8
    ensures { result ≡ crc_of bytes.now }
{
    crc8(bytes)
}
