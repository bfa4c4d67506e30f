// A motor's speed. The Rust has none: what is expected is document 01's.
use crate::print::Refused;
use airframe::motor_speed;

// Speeds, and magnet counts that are refused.
pub fn run(rt: &impl Print) {
    vector(rt, 70, 14);
    vector(rt, 70, 13);
    vector(rt, 70, 0);
    vector(rt, 70, 1);
    vector(rt, 0, 2);
    // 200 / 14, rounded down.
    vector(rt, 1, 14);
    vector(rt, 65535, 2);
    vector(rt, 65535, 254);
    vector(rt, 65535, 255);
}

fn vector(rt: &impl Print, erpm_div100: u16, magnets: u8) {
    let _ = match motor_speed(erpm_div100, magnets) {
        Ok(rpm) => println!(rt; "speed {erpm_div100} {magnets} {rpm}"),
        Err(refusal) => println!(rt; "speed {} {erpm_div100} {magnets}", Refused(refusal)),
    };
}
