// CRC-8 with polynomial 07, start 0, highest bit first.
use blheli_telemetry::crc8;

// The CRC's vectors.
pub fn run(rt: &impl Print) {
    // Document 01.
    vector(rt, "nothing", b"");
    vector(rt, "80", b"\x80");
    // The catalogue of parametrised CRC algorithms, CRC-8/SMBUS: its check value, and its residue, 00,
    // for a message with its own CRC behind it.
    vector(rt, "digits", b"123456789");
    vector(rt, "digits and their CRC", b"123456789\xf4");
    // The polynomial itself.
    vector(rt, "01", b"\x01");
    // The MLX90614 data sheet's examples of an SMBus packet error code: a read and a write.
    vector(rt, "MLX90614 read", b"\xb4\x07\xb5\xd2\x3a");
    vector(rt, "MLX90614 write", b"\xb4\x22\x07\xc8");
    // ITU-T I.432.1: the header error control of an idle cell is 52, and that is the CRC plus 55.
    vector(rt, "ATM idle cell", b"\x00\x00\x00\x01");
}

fn vector(rt: &impl Print, name: &str, bytes: &[u8]) {
    let _ = println!(rt; "crc8 {name}: {:02x}", crc8(bytes));
}
