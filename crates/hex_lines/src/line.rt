// A line of hexadecimal characters and the bytes that it stands for.
ghost use Rattle.std.specs.Prelude.{◌≡◌, ◌+◌, ◌*◌, ◌≤◌, ◌<◌, length, take, drop};
ghost use Rattle.base.specs.BigEndian.{overwrite};
ghost use Rattle.base.specs.Put.{Put};
ghost use Rattle.hex_lines.specs.Line.{read_line, printed_line, line_read, PairsRead, NoPairBegins, longest_record};

use crate::digits::{Digits, glyph};
use base::Refusal;

pub const LINE_END: u8 = b'\n';

// The widest line: two characters for each byte of the longest record.
const WIDEST: usize = 58;

// As many bytes as any record has.
pub const LONGEST_RECORD: usize = 29;

// The bytes that a line stands for, which are put at the front of `bytes`.
#[tactic(auto, using(crate::proofs::LineLaws::read_wide))]
pub(crate) fn read_line<'bytes>(
    digits: &Digits,
    line: &[u8],
    bytes: &'bytes mut [u8; LONGEST_RECORD],
) -> Result<&'bytes [u8], Refusal>
    ensures { line_read result ≡ read_line line.now }
{
    if WIDEST < line.len() {
        return Err(Refusal::WideLine);
    }
    let (n, rest) = read_pairs(digits, line, bytes);
    match rest {
        [] => Ok(&bytes[..n]),
        [last] if digits.is_digit(*last) => Err(Refusal::HalfByte),
        [_] => Err(Refusal::Digit),
        // One of the next two is no digit.
        [_, _, ..] => Err(Refusal::Digit),
    }
}

// Puts the bytes of the digits at the front of a text into `bytes`, two by two as long as there are, and gives how many they are and
// what is left of the text.
pub(crate) fn read_pairs<'text>(
    digits: &Digits,
    text: &'text [u8],
    bytes: &mut [u8; LONGEST_RECORD],
) -> (usize, &'text [u8])
    ensures fits { result.0 ≤ longest_record }
    ensures read { PairsRead text.now (take result.0 bytes.new) result.1.now }
    ensures all { result.0 < longest_record → NoPairBegins result.1.now }
{
    let n = put_pairs(digits, text, bytes);
    (n, &text[2 * n..])
}

// The same, without what is left.
fn put_pairs(digits: &Digits, text: &[u8], bytes: &mut [u8; LONGEST_RECORD]) -> usize
    ensures fits { result ≤ longest_record }
    ensures read { PairsRead text.now (take result bytes.new) (drop (2 * result) text.now) }
    ensures all { result < longest_record → NoPairBegins (drop (2 * result) text.now) }
{
    let (pairs, _) = text.as_chunks::<2>();
    for (n, byte) in bytes.iter_mut().enumerate() {
        let Some(&[first, second]) = pairs.get(n) else {
            return n;
        };
        let Some(read) = digits.pair(first, second) else {
            return n;
        };
        *byte = read;
    }
    LONGEST_RECORD
}

// Writes bytes as a line of small digits from the place `at` on, and gives the place behind it.
pub fn print_line(bytes: &[u8], out: &mut [u8], at: usize) -> usize
    requires { at + (2 * length bytes.now + 1) ≤ length out.old }
    ensures value { result ≡ at + length (printed_line bytes.now) }
    ensures out_after { out.new ≡ overwrite at (printed_line bytes.now) out.old }
{
    let mut end = at;
    for &byte in bytes {
        end = put(&[glyph(byte / 16), glyph(byte % 16)], out, end);
    }
    put(&[LINE_END], out, end)
}

// Writes a text from the place `at` on, and gives the place behind it.
#[tactic(auto, unfolding(base::specs::BigEndian::overwrite))]
fn put(text: &[u8], out: &mut [u8], at: usize) -> usize
    requires { at + length text.now ≤ length out.old }
    ensures { Put at text.now out.old out.new result }
{
    let behind = at + text.len();
    out[at..behind].copy_from_slice(text);
    behind
}
