// The frame: temperature, then voltage, current, consumption and eRPM / 100, 16 bits each, high byte
// first, then the CRC of those nine bytes.
ghost use Rattle.std.specs.Prelude.{◌≡◌, length};
ghost use Rattle.base.specs.Reply.{replied};
ghost use Rattle.blheli_telemetry.specs.Frame.{telemetry_of, payload_of, frame_of, read_frame, frame_reply, frame_written};

use crate::big_endian::be16_at;
use crate::crc::crc8;
use base::Refusal;

pub const FRAME_LEN: usize = 10;

const PAYLOAD_LEN: usize = 9;

#[derive(Clone, Copy)]
pub struct EscTelemetry {
    pub temperature_c: u8,
    pub voltage_cv: u16,
    pub current_ca: u16,
    pub consumption_mah: u16,
    // Electrical RPM divided by 100, as carried on the wire.
    pub erpm_div100: u16,
}

// The telemetry of ten bytes whose last is the check byte of the nine before.
#[tactic(auto, unfolding(crate::specs::Frame::read_frame))]
pub fn decode(frame: &[u8]) -> Result<EscTelemetry, Refusal>
    ensures { replied result ≡ read_frame frame.now }
{
    if frame.len() != FRAME_LEN {
        return Err(Refusal::Length);
    }
    if crc8(&frame[..PAYLOAD_LEN]) != frame[PAYLOAD_LEN] {
        return Err(Refusal::CheckByte);
    }
    Ok(telemetry_of(frame))
}

// Writes the frame at the start of out, and leaves the rest of it as it is.
#[tactic(auto, unfolding(crate::specs::Frame::frame_reply, crate::specs::Frame::frame_written, crate::specs::Frame::frame_of, base::specs::BigEndian::overwrite))]
pub fn encode(telemetry: EscTelemetry, out: &mut [u8]) -> Result<(), Refusal>
    ensures result_value { replied result ≡ frame_reply out.old }
    ensures out_after { out.new ≡ frame_written telemetry out.old }
{
    if out.len() < FRAME_LEN {
        return Err(Refusal::Space);
    }
    out[..FRAME_LEN].copy_from_slice(&frame_of(telemetry));
    Ok(())
}

#[tactic(auto, unfolding(crate::specs::Frame::telemetry_of, base::specs::BigEndian::number_at))]
fn telemetry_of(frame: &[u8]) -> EscTelemetry
    requires { length frame.now ≡ 10 }
    ensures { result ≡ telemetry_of frame.now }
{
    EscTelemetry {
        temperature_c: frame[0],
        voltage_cv: be16_at(frame, 1),
        current_ca: be16_at(frame, 3),
        consumption_mah: be16_at(frame, 5),
        erpm_div100: be16_at(frame, 7),
    }
}

// The payload with its check byte behind it.
#[tactic(auto, unfolding(crate::specs::Frame::frame_of))]
fn frame_of(telemetry: EscTelemetry) -> [u8; FRAME_LEN]
    ensures { result ≡ frame_of telemetry }
{
    let payload = payload_of(telemetry);
    let mut frame = [0; FRAME_LEN];
    frame[..PAYLOAD_LEN].copy_from_slice(&payload);
    frame[PAYLOAD_LEN] = crc8(&payload);
    frame
}

// The fields in the order of the wire.
#[tactic(auto, unfolding(crate::specs::Frame::payload_of, base::specs::BigEndian::bytes_of))]
fn payload_of(telemetry: EscTelemetry) -> [u8; PAYLOAD_LEN]
    ensures { result ≡ payload_of telemetry }
{
    let mut payload = [0; PAYLOAD_LEN];
    payload[0] = telemetry.temperature_c;
    payload[1..3].copy_from_slice(&telemetry.voltage_cv.to_be_bytes());
    payload[3..5].copy_from_slice(&telemetry.current_ca.to_be_bytes());
    payload[5..7].copy_from_slice(&telemetry.consumption_mah.to_be_bytes());
    payload[7..].copy_from_slice(&telemetry.erpm_div100.to_be_bytes());
    payload
}
