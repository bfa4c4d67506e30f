// The board map both ways. The Rust has none: what is expected is document 01's.
use crate::print::{Hex, Refused};
use airframe::BoardMap;

// The board map both ways, and maps that are refused.
pub fn run(rt: &impl Print) {
    vector(rt, b"\x01\x02\x03\x04");
    vector(rt, b"\x03\x01\x04\x02");
    // Three and five bytes: 5, whatever they are.
    vector(rt, b"");
    vector(rt, b"\x01\x02\x03");
    vector(rt, b"\x01\x01\x01");
    vector(rt, b"\x01\x02\x03\x04\x04");
    // Not each of 1 to 4 once: 12.
    vector(rt, b"\x01\x02\x03\x03");
    vector(rt, b"\x00\x01\x02\x03");
    vector(rt, b"\x02\x03\x04\x05");
}

fn vector(rt: &impl Print, bytes: &[u8]) {
    let _ = print!(rt; "map {}: ", Hex(bytes));
    match BoardMap::try_from(bytes) {
        Ok(map) => both_ways(rt, map),
        Err(refusal) => {
            let _ = println!(rt; "{}", Refused(refusal));
        }
    }
}

// Each lane's motor and each motor's lane, and the bytes next to them.
fn both_ways(rt: &impl Print, map: BoardMap) {
    let _ = print!(rt; "lanes");
    for lane in 0..5 {
        motor_of_lane(rt, map, lane);
    }
    let _ = print!(rt; ", motors");
    for motor in 0..6 {
        output_of_motor(rt, map, motor);
    }
    let _ = println!(rt; "");
}

fn motor_of_lane(rt: &impl Print, map: BoardMap, lane: u8) {
    let _ = match map.motor_of_lane(lane) {
        Ok(motor) => print!(rt; " {}", u8::from(motor)),
        Err(_) => print!(rt; " -"),
    };
}

fn output_of_motor(rt: &impl Print, map: BoardMap, motor: u8) {
    let _ = match map.output_of_motor(motor) {
        Ok(output) => print!(rt; " {}", output.index()),
        Err(_) => print!(rt; " -"),
    };
}
