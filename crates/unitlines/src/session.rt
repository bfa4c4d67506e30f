// One session: lines of records from a reader, a line with the answer to each to a writer.
// It only reads and writes; what is printed is the stream's.
ghost use Rattle.std.specs.Prelude.{◌≡◌, ◌≤◌, ◌<◌, length, IfSome, IfOk, OnOk};
ghost use Rattle.std.specs.Io.KnownBytes.{Appends};
ghost use Rattle.unit_text.specs.Session.{session_text};
ghost use Rattle.unit_text.specs.Stream.{after, longest_line, printed, printed_at_end};
ghost use Rattle.unit_text.specs.Streams.{streamed};

use crate::output::{NotWritten, write_end, write_printed};
use std::io::{Read, Write};
use unit_text::Stream;

// Why a session stopped before the end of its input.
#[derive(Clone, Copy, Debug, PartialEq, Eq)]
pub(crate) enum SessionError {
    NotRead,
    NotWritten,
}

impl From<NotWritten> for SessionError {
    fn from(_error: NotWritten) -> SessionError {
        SessionError::NotWritten
    }
}

// Feeds all of a chunk to a stream, and writes what that prints. The stream after it.
fn pump<W: Write>(
    to: &mut W,
    stream: Stream,
    chunk: &[u8],
    out: &mut [u8],
) -> Result<Stream, NotWritten>
    requires { longest_line ≤ length out.old }
    ensures stream_after { IfOk result (λ next. streamed next ≡ after (streamed stream) chunk.now) }
    ensures written { OnOk result (Appends (W.contents to.old) (W.contents to.new) (printed (streamed stream) chunk.now)) }
{
    let mut stream = stream;
    let mut rest = chunk;
    while !rest.is_empty() {
        let fed = stream.feed(rest, out);
        let (part, behind) = rest.split_at(fed.used);
        write_printed(to, stream, part, &out[..fed.written])?;
        stream = fed.stream;
        rest = behind;
    }
    Ok(stream)
}

// Writes what the end of input prints. Any answer fits in the output, so that none is refused.
fn finish<W: Write>(to: &mut W, stream: Stream, out: &mut [u8]) -> Result<(), NotWritten>
    ensures { OnOk result (Appends (W.contents to.old) (W.contents to.new) (printed_at_end (streamed stream))) }
{
    let n = stream.finish(out)?;
    write_end(to, stream, &out[..n])
}

// Reads to the end of input. A loop has to end, and nothing says that the input does: the count of
// reads ends it, and no input is that long. Where the bytes that are read and written are known, those written are the text
// of the session that those read are.
pub(crate) fn run<R: Read, W: Write>(
    from: &mut R,
    to: &mut W,
    input: &mut [u8],
    out: &mut [u8],
) -> Result<(), SessionError>
    requires { longest_line ≤ length out.old }
    ensures { 0 < length input.old → OnOk result (IfSome (R.remaining from.old)
        (λ text. Appends (W.contents to.old) (W.contents to.new) (session_text text))) }
{
    let mut stream = Stream::new();
    for _ in 0..u64::MAX {
        let n = from.read(input).map_err(|_| SessionError::NotRead)?;
        if n == 0 {
            finish(to, stream, out)?;
            return Ok(());
        }
        stream = pump(to, stream, &input[..n], out)?;
    }
    Err(SessionError::NotRead)
}

#[cfg(test)]
mod tests {
    use super::*;
    use std::test::Fail;

    // The session of docs/session.txt, of a reader and a writer whose bytes are known. Seven bytes are read at a time, so
    // that nearly each line goes on in the next read.
    #[test]
    fn answers_in_small_reads(rt: HostRuntime) -> Result<(), Fail> {
        let mut from: &[u8] = b"0000000000000000000000001400000064000001f40000000000000000\n\
            010000000000000000\n\
            0200000000000000000000000000\n\
            0200000000000000000000000000\n\
            \n\
            040000000000000014\n\
            07000000000000000207\n\
            07000000000000000208\n";
        let mut to = Vec::new(rt.alloc());
        let mut input = [0u8; 7];
        let mut out = [0u8; 256];
        let ended = run(&mut from, &mut to, &mut input, &mut out);
        assert!(rt; ended.is_ok());
        let answers = b"00\n00010000000000\n0001\n0000\n04\n00010000000000\n0000\n0001\n";
        assert_eq!(rt; to.as_slice(), answers.as_slice());
        Ok(())
    }
}
