// The next line at the front of a chunk.
ghost use Rattle.std.specs.Prelude.{◌≡◌, ◌==◌, position, IfSome};
ghost use Rattle.hex_lines.specs.HeldLine.{held_characters};
ghost use Rattle.hex_lines.specs.NextLine.{NextFrom, ReadInPlace};

use crate::digits::Digits;
use crate::held_line::HeldLine;
use crate::line::{LINE_END, LONGEST_RECORD, read_line, read_pairs};
use base::Refusal;

// A line that LF ends: the bytes that it stands for, and the place behind LF.
#[derive(Clone, Copy)]
pub struct EndedLine<'bytes> {
    pub read: Result<&'bytes [u8], Refusal>,
    pub behind: usize,
}

// Reads the line that begins with what is held and goes on in the chunk. Where the chunk ends before the line does, there is
// none, and what there is of it is held. Its bytes are put at the front of `bytes`.
pub fn next_line<'bytes>(
    digits: &Digits,
    chunk: &[u8],
    line: &mut HeldLine,
    bytes: &'bytes mut [u8; LONGEST_RECORD],
) -> Option<EndedLine<'bytes>>
    ensures { NextFrom (held_characters line.old) chunk.now result (held_characters line.new) }
{
    // Nearly every line lies in its chunk as a whole, and is read from there.
    if line.is_empty()
        && let Some(n) = line_in_place(digits, chunk, bytes)
    {
        return Some(EndedLine {
            read: Ok(&bytes[..n]),
            behind: 2 * n + 1,
        });
    }
    let Some(end) = line_end(chunk) else {
        line.hold(chunk);
        return None;
    };
    let behind = end + 1;
    // What lies in the chunk as a whole need not be held.
    if line.is_empty() {
        let read = read_line(digits, &chunk[..end], bytes);
        return Some(EndedLine { read, behind });
    }
    line.hold(&chunk[..end]);
    let read = read_line(digits, line.characters(), bytes);
    line.clear();
    Some(EndedLine { read, behind })
}

// How many bytes the line at the front of a chunk stands for, read where it stands: its digits, two by two, and LF behind them.
fn line_in_place(digits: &Digits, chunk: &[u8], bytes: &mut [u8; LONGEST_RECORD]) -> Option<usize>
    ensures { IfSome result (λ n. ReadInPlace chunk.now n bytes.new) }
{
    // An empty line has none.
    if let [LINE_END, ..] = chunk {
        return Some(0);
    }
    let (n, [LINE_END, ..]) = read_pairs(digits, chunk, bytes) else {
        return None;
    };
    Some(n)
}

// The place of the first LF.
fn line_end(chunk: &[u8]) -> Option<usize>
    ensures { result ≡ position (λ c. c == 10) chunk.now }
{
    chunk.iter().position(|&character| character == LINE_END)
}
