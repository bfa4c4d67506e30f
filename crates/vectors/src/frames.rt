// Whole frames, field by field, and written again.
use crate::print::{Fields, Hex, Refused};
use blheli_telemetry::{EscTelemetry, decode, encode};

// Frames read and written.
pub fn run(rt: &impl Print) {
    // Document 01.
    vector(rt, "ten zeros", b"\x00\x00\x00\x00\x00\x00\x00\x00\x00\x00");
    vector(
        rt,
        "eRPM/100 30",
        b"\x00\x00\x00\x00\x00\x00\x00\x00\x1e\x5a",
    );
    vector(
        rt,
        "wrong check byte",
        b"\x00\x00\x00\x00\x00\x00\x00\x00\x1e\x5b",
    );
    vector(rt, "nine bytes", b"\x00\x00\x00\x00\x00\x00\x00\x00\x00");
    vector(
        rt,
        "eleven bytes",
        b"\x00\x00\x00\x00\x00\x00\x00\x00\x00\x00\x00",
    );
    vector(rt, "no bytes", b"");
    // The KISS layout: 25 C, 16.80 V, 12.34 A, 567 mAh, 123400 eRPM. Its check byte is lib.rs's.
    vector(rt, "cruise", b"\x19\x06\x90\x04\xd2\x02\x37\x04\xd2\xbc");
    // The KISS layout, no two bytes alike, and each field at its largest. Check bytes by lib.rs.
    vector(rt, "counting", b"\x01\x02\x03\x04\x05\x06\x07\x08\x09\x85");
    vector(rt, "largest", b"\xff\xff\xff\xff\xff\xff\xff\xff\xff\xd8");
}

fn vector(rt: &impl Print, name: &str, frame: &[u8]) {
    let _ = print!(rt; "frame {name}: ");
    match decode(frame) {
        Ok(telemetry) => both_ways(rt, telemetry),
        Err(refusal) => {
            let _ = println!(rt; "{}", Refused(refusal));
        }
    }
}

fn both_ways(rt: &impl Print, telemetry: EscTelemetry) {
    let mut frame = [0u8; 10];
    let _ = match encode(telemetry, &mut frame) {
        Ok(()) => println!(rt; "{}, written {}", Fields(telemetry), Hex(&frame)),
        Err(refusal) => println!(rt; "{}", Refused(refusal)),
    };
}
