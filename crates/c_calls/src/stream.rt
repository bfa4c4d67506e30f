// A stream of bytes through a new parser.
ghost use Rattle.std.specs.Prelude.{◌≡◌, ◌+◌, ◌*◌, ◌≤◌, ◌<◌, length, set};
ghost use Rattle.blheli_telemetry.specs.Parser.{new_parser};
ghost use Rattle.blheli_telemetry.specs.Stream.{parsed_by};
ghost use Rattle.c_calls.specs.Stream.{mark_of, filled_at, marked, filled, stats_by, counts_in, stream_number, marks_after, fields_after, counts_after};

use crate::frame::{FIELDS, put_fields};
use base::Refusal;
use blheli_telemetry::{EscTelemetry, ParserStats, StreamParser};

const COUNTS: usize = 3;

// 0, and: for each byte 1 where it gave a sample, else 0; the sample's five fields, five entries to a
// byte, which stay as they are where it gave none; the counts of valid frames, CRC failures and
// discarded bytes. Or 9.
#[tactic(auto, unfolding(crate::specs::Stream::fits))]
#[unsafe(no_mangle)]
pub extern "C" fn esc_stream_parse(
    bytes: &[u8],
    gave: &mut [u8],
    fields: &mut [u16],
    counts: &mut [u32],
) -> u8
    ensures value { result ≡ stream_number bytes.now gave.old fields.old counts.old }
    ensures gave_after { gave.new ≡ marks_after bytes.now gave.old fields.old counts.old }
    ensures fields_after { fields.new ≡ fields_after bytes.now gave.old fields.old counts.old }
    ensures counts_after { counts.new ≡ counts_after bytes.now gave.old fields.old counts.old }
{
    if gave.len() < bytes.len() || fields.len() / FIELDS < bytes.len() || counts.len() < COUNTS {
        return u8::from(Refusal::Space);
    }
    let stats = run(bytes, gave, fields);
    put_counts(stats, counts);
    0
}

fn run(bytes: &[u8], gave: &mut [u8], fields: &mut [u16]) -> ParserStats
    requires { (length bytes.now ≤ length gave.old) × (5 * length bytes.now ≤ length fields.old) }
    ensures value { result ≡ stats_by new_parser bytes.now }
    ensures gave_after { gave.new ≡ marked 0 (parsed_by new_parser bytes.now) gave.old }
    ensures fields_after { fields.new ≡ filled 0 (parsed_by new_parser bytes.now) fields.old }
{
    let mut parser = StreamParser::new();
    for (i, &byte) in bytes.iter().enumerate() {
        let parsed = parser.push(byte);
        put(parsed, i, gave, fields);
    }
    parser.stats()
}

// What one byte brought out.
fn put(parsed: Option<EscTelemetry>, i: usize, gave: &mut [u8], fields: &mut [u16])
    requires { (i < length gave.old) × (5 * i + 5 ≤ length fields.old) }
    ensures gave_after { gave.new ≡ set gave.old i (mark_of parsed) }
    ensures fields_after { fields.new ≡ filled_at i parsed fields.old }
{
    gave[i] = u8::from(parsed.is_some());
    if let Some(telemetry) = parsed {
        put_fields(telemetry, fields, FIELDS * i);
    }
}

#[tactic(auto, unfolding(base::specs::BigEndian::overwrite))]
fn put_counts(stats: ParserStats, counts: &mut [u32])
    requires { 3 ≤ length counts.old }
    ensures { counts.new ≡ counts_in stats counts.old }
{
    counts[..COUNTS].copy_from_slice(&[
        stats.valid_frames,
        stats.crc_failures,
        stats.discarded_bytes,
    ]);
}
