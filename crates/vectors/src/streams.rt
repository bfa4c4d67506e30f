// The parser on streams with noise before, between and after frames, pushed in place. What is expected is
// what lib.rs gave on the same bytes: each sample with the count of bytes pushed, then the counts
// of frames, of check bytes that failed and of bytes discarded.
use crate::in_place;
use crate::print::Fields;
use blheli_telemetry::StreamParser;

// Streams through the parser.
pub fn run(rt: &impl Print) {
    // Three bytes of noise, then a frame.
    vector(
        rt,
        "noise before",
        b"\xff\x00\x5a\x19\x06\x90\x04\xd2\x02\x37\x04\xd2\xbc",
    );
    // Two bytes of noise between two frames.
    vector(
        rt,
        "noise between",
        b"\x19\x06\x90\x04\xd2\x02\x37\x04\xd2\xbc\x13\x37\x01\x02\x03\x04\x05\x06\x07\x08\x09\x85",
    );
    // A frame, then noise.
    vector(
        rt,
        "noise after",
        b"\x19\x06\x90\x04\xd2\x02\x37\x04\xd2\xbc\xde\xad\xbe\xef\x01\x02\x03\x04\x05\x06\x07\x08",
    );
    // Two frames, nothing between them.
    vector(
        rt,
        "back to back",
        b"\x19\x06\x90\x04\xd2\x02\x37\x04\xd2\xbc\x01\x02\x03\x04\x05\x06\x07\x08\x09\x85",
    );
    // A frame that lacks its fourth byte, then two whole ones.
    vector(
        rt,
        "lost byte",
        b"\x19\x06\x90\xd2\x02\x37\x04\xd2\xbc\x01\x02\x03\x04\x05\x06\x07\x08\x09\x85\x19\x06\x90\x04\xd2\x02\x37\x04\xd2\xbc",
    );
    // A frame whose check byte is off by one bit, then a whole one.
    vector(
        rt,
        "damaged check byte",
        b"\x19\x06\x90\x04\xd2\x02\x37\x04\xd2\xbd\x01\x02\x03\x04\x05\x06\x07\x08\x09\x85",
    );
    // Twenty-five zeros: two frames, and five bytes held.
    vector(
        rt,
        "zeros",
        b"\x00\x00\x00\x00\x00\x00\x00\x00\x00\x00\x00\x00\x00\x00\x00\x00\x00\x00\x00\x00\x00\x00\x00\x00\x00",
    );
    after_reset(rt);
}

fn vector(rt: &impl Print, name: &str, bytes: &[u8]) {
    let parser = fed(rt, name, StreamParser::new(), bytes);
    counts(rt, name, parser);
}

// A damaged frame, of which nine bytes are held, and a reset: the ten bytes after it are a frame of their
// own, and the counts go on.
fn after_reset(rt: &impl Print) {
    let held = fed(
        rt,
        "reset",
        StreamParser::new(),
        b"\x19\x06\x90\x04\xd2\x02\x37\x04\xd2\xbd",
    );
    counts(rt, "reset", held);
    let after = fed(
        rt,
        "reset",
        in_place::reset(held),
        b"\x01\x02\x03\x04\x05\x06\x07\x08\x09\x85",
    );
    counts(rt, "reset", after);
}

// The parser after the bytes, each sample shown with the count of bytes up to it.
fn fed(rt: &impl Print, name: &str, first: StreamParser, bytes: &[u8]) -> StreamParser {
    let mut parser = first;
    for (i, &byte) in bytes.iter().enumerate() {
        let pushed = in_place::push(parser, byte);
        parser = pushed.parser;
        if let Some(sample) = pushed.parsed {
            let _ = println!(rt; "stream {name}: at {}: {}", i + 1, Fields(sample));
        }
    }
    parser
}

fn counts(rt: &impl Print, name: &str, parser: StreamParser) {
    let stats = parser.stats();
    let _ = println!(rt;
        "stream {name}: counts {} {} {}",
        stats.valid_frames, stats.crc_failures, stats.discarded_bytes
    );
}
