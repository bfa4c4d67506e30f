// Reading a frame and writing one. Its fields are five numbers, in the frame's order: temperature,
// voltage, current, consumption, eRPM / 100.
ghost use Rattle.std.specs.Prelude.{◌≡◌, ◌+◌, ◌≤◌, length};
ghost use Rattle.base.specs.BigEndian.{overwrite};
ghost use Rattle.blheli_telemetry.specs.Frame.{frame_reply, frame_written};
ghost use Rattle.base.specs.Reply.{replied, number_of};
ghost use Rattle.c_calls.specs.Frame.{telemetry_by, fields_of, read_number, fields_read};

use crate::answer::number;
use base::Refusal;
use blheli_telemetry::{EscTelemetry, FRAME_LEN, decode, encode};

pub(crate) const FIELDS: usize = 5;

// 0 where the frame is good, and its fields; 5, 9 or 10 where it is not, or where they have no room.
#[unsafe(no_mangle)]
pub extern "C" fn esc_frame_read(frame: &[u8], fields: &mut [u16]) -> u8
    ensures value { result ≡ read_number frame.now (length fields.old) }
    ensures fields_after { fields.new ≡ fields_read frame.now fields.old }
{
    number(read_fields(frame, fields))
}

// 0, and the frame's ten bytes; or 9.
#[unsafe(no_mangle)]
pub extern "C" fn esc_frame_write(
    temperature_c: u8,
    voltage_cv: u16,
    current_ca: u16,
    consumption_mah: u16,
    erpm_div100: u16,
    out: &mut [u8],
) -> u8
    ensures value { result ≡ number_of (frame_reply out.old) }
    ensures out_after { out.new ≡ frame_written (telemetry_by temperature_c voltage_cv current_ca consumption_mah erpm_div100) out.old }
{
    let telemetry = EscTelemetry {
        temperature_c,
        voltage_cv,
        current_ca,
        consumption_mah,
        erpm_div100,
    };
    number(encode(telemetry, out))
}

// The lowest number that fits: the frame's length, 5, before the room lent, 9, before the check byte, 10.
#[tactic(auto, using(blheli_telemetry::proofs::FrameLaws::read_length), unfolding(crate::specs::Frame::read_number, crate::specs::Frame::fields_read))]
fn read_fields(frame: &[u8], fields: &mut [u16]) -> Result<(), Refusal>
    ensures value { number_of (replied result) ≡ read_number frame.now (length fields.old) }
    ensures fields_after { fields.new ≡ fields_read frame.now fields.old }
{
    if frame.len() != FRAME_LEN {
        return Err(Refusal::Length);
    }
    if fields.len() < FIELDS {
        return Err(Refusal::Space);
    }
    let telemetry = decode(frame)?;
    put_fields(telemetry, fields, 0);
    Ok(())
}

#[tactic(auto, unfolding(base::specs::BigEndian::overwrite))]
pub(crate) fn put_fields(telemetry: EscTelemetry, fields: &mut [u16], at: usize)
    requires { at + 5 ≤ length fields.old }
    ensures { fields.new ≡ overwrite at (fields_of telemetry) fields.old }
{
    fields[at..at + FIELDS].copy_from_slice(&[
        u16::from(telemetry.temperature_c),
        telemetry.voltage_cv,
        telemetry.current_ca,
        telemetry.consumption_mah,
        telemetry.erpm_div100,
    ]);
}
