// A line with a wire byte, as most lines of a session are: it is read straight into its numbers.
ghost use Rattle.std.specs.Prelude.{IfSome};
ghost use Rattle.hex_lines.specs.HeldLine.{held_characters};
ghost use Rattle.record_lines.specs.WireLine.{WireAt, NumberRead, CollectedAt, CollectedIfOpened};

use blheli_telemetry::StreamParser;
use hex_lines::digits::Digits;
use hex_lines::held_line::HeldLine;
use hex_lines::line::LINE_END;

// How many characters the time has.
const TIME: usize = 16;

// How many characters the line has: two of the kind, two of the byte, and those of the time.
pub const WIRE_LINE: usize = 4 + TIME;

// The byte, and its time.
#[derive(Clone, Copy)]
pub struct WireByte {
    pub byte: u8,
    pub at_ms: u64,
}

// The byte at the front of a chunk, where it is a line of its own and the parser only collects it: it then moves
// nothing but the parser and the fault's quiet time.
pub fn collected_byte(
    digits: &Digits,
    chunk: &[u8],
    line: &HeldLine,
    parser: StreamParser,
) -> Option<WireByte>
    ensures { IfSome result (CollectedAt (held_characters line.now) parser chunk.now) }
{
    collected_if_opened(digits, chunk, line.len(), true, parser)
}

// The same, where so many characters of a line are held, of a unit that was opened, or was not, and its parser: one that was not
// has no byte.
pub fn collected_if_opened(
    digits: &Digits,
    chunk: &[u8],
    held: usize,
    opened: bool,
    parser: StreamParser,
) -> Option<WireByte>
    ensures { IfSome result (CollectedIfOpened held opened parser chunk.now) }
{
    if held == 0 && opened && parser.collects() {
        wire_line(digits, chunk)
    } else {
        None
    }
}

// A byte's line: 05, the byte, its time and LF.
fn wire_line(digits: &Digits, chunk: &[u8]) -> Option<WireByte>
    ensures { IfSome result (WireAt chunk.now) }
{
    let [b'0', b'5', high, low, rest @ ..] = chunk else {
        return None;
    };
    let (time, [LINE_END, ..]) = rest.split_first_chunk::<TIME>()? else {
        return None;
    };
    Some(WireByte {
        byte: digits.pair(*high, *low)?,
        at_ms: number(digits, time)?,
    })
}

// The number that the digits of a time stand for.
fn number(digits: &Digits, text: &[u8; TIME]) -> Option<u64>
    ensures { IfSome result (NumberRead text.now) }
{
    let mut number: u64 = 0;
    for &[high, low] in text.as_chunks::<2>().0 {
        number = number * 256 + u64::from(digits.pair(high, low)?);
    }
    Some(number)
}

#[cfg(test)]
mod tests {
    use super::*;
    use crate::next_record::next_record;
    use std::test::Fail;

    // The byte and its time, of a chunk in which a line begins.
    fn read(chunk: &[u8]) -> Option<(u8, u64)> {
        let wire = collected_if_opened(&Digits::new(), chunk, 0, true, StreamParser::new())?;
        Some((wire.byte, wire.at_ms))
    }

    // The same, behind what is held of a line.
    fn read_behind(line: &HeldLine, chunk: &[u8]) -> Option<(u8, u64)> {
        let wire = collected_byte(&Digits::new(), chunk, line, StreamParser::new())?;
        Some((wire.byte, wire.at_ms))
    }

    // No contract says which lines are read in this way: one in capitals is, and one in both letters.
    #[test]
    fn capitals_are_read_straight(rt: HostRuntime) -> Result<(), Fail> {
        assert_eq!(rt; read(b"05E7000000000000ABD6\n06\n"), Some((0xe7, 0xabd6)));
        assert_eq!(rt;
            read(b"05eF00fF0000Aa00aBd9\n"),
            Some((0xef, 0x00ff_0000_aa00_abd9))
        );
        Ok(())
    }

    // The line goes on where one is begun, so no byte is read from the middle of it.
    #[test]
    fn no_byte_behind_a_held_line(rt: HostRuntime) -> Result<(), Fail> {
        let chunk = b"05e7000000000000abd6\n06\n";
        let mut line = HeldLine::new();
        assert_eq!(rt; read_behind(&line, chunk), Some((0xe7, 0xabd6)));
        assert!(rt; next_record(&Digits::new(), b"0", &mut line).is_none());
        assert_eq!(rt; read_behind(&line, chunk), None);
        Ok(())
    }
}
