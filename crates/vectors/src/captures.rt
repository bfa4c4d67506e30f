// The capture search: captures with no good frame, with one and with several.
use blheli_telemetry::find_frame;

// Captures that are searched for a frame.
pub fn run(rt: &impl Print) {
    vector(rt, "nothing", b"");
    vector(rt, "nine bytes", b"\x19\x06\x90\x04\xd2\x02\x37\x04\xd2");
    vector(rt, "whole", b"\x19\x06\x90\x04\xd2\x02\x37\x04\xd2\xbc");
    vector(
        rt,
        "damaged",
        b"\x19\x06\x90\x04\xd2\x02\x37\x04\xd2\xbd\x01\x02\x03\x04\x05",
    );
    vector(
        rt,
        "noise before",
        b"\xff\x00\x5a\x19\x06\x90\x04\xd2\x02\x37\x04\xd2\xbc",
    );
    vector(
        rt,
        "noise after",
        b"\x19\x06\x90\x04\xd2\x02\x37\x04\xd2\xbc\xde\xad\xbe\xef",
    );
    vector(
        rt,
        "noise about",
        b"\xde\xad\xbe\xef\x01\x02\x03\x04\x05\x06\x07\x08\x09\x85\x13\x37",
    );
    vector(rt, "twenty zeros", &[0; 20]);
    vector(
        rt,
        "one stray byte",
        b"\xff\x01\x02\x03\x04\x05\x06\x07\x08\x09\x85",
    );
    vector(
        rt,
        "two that overlap",
        b"\xff\x01\x02\x03\x04\x05\x06\x07\x08\x09\x85\x68",
    );
    vector(
        rt,
        "two apart",
        b"\xff\x00\x5a\x19\x06\x90\x04\xd2\x02\x37\x04\xd2\xbc\xff\x01\x02\x03\x04\x05\x06\x07\x08\x09\x85",
    );
}

fn vector(rt: &impl Print, name: &str, capture: &[u8]) {
    let _ = match find_frame(capture) {
        Some(start) => println!(rt; "capture {name}: {start}"),
        None => println!(rt; "capture {name}: none"),
    };
}
