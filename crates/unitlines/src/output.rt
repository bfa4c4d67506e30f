// All answers that reach standard output. A contract can't say that something was written to it, so each of these
// two asks what the text is that it hands to the write call, and whoever calls it has proved it. The
// stream and the part of the input are here for that alone. Of a writer whose bytes are known, it is said that they
// grow by that text.
ghost use Rattle.std.specs.Prelude.{◌≡◌, OnOk};
ghost use Rattle.std.specs.Io.KnownBytes.{Appends};
ghost use Rattle.unit_text.specs.Stream.{printed, printed_at_end};
ghost use Rattle.unit_text.specs.Streams.{streamed};

use base::Refusal;
use std::io;
use std::io::Write;
use unit_text::Stream;

// The output can't be written, so that no more answers can be.
#[derive(Clone, Copy, Debug, PartialEq, Eq)]
pub(crate) struct NotWritten;

impl From<io::Error> for NotWritten {
    fn from(_error: io::Error) -> NotWritten {
        NotWritten
    }
}

// Of what has no room in the buffer that it is written from.
impl From<Refusal> for NotWritten {
    fn from(_refusal: Refusal) -> NotWritten {
        NotWritten
    }
}

// Writes what a stream prints at a part of the input.
pub(crate) fn write_printed<W: Write>(
    to: &mut W,
    stream: Stream,
    part: &[u8],
    text: &[u8],
) -> Result<(), NotWritten>
    requires { text.now ≡ printed (streamed stream) part.now }
    ensures { OnOk result (Appends (W.contents to.old) (W.contents to.new) (printed (streamed stream) part.now)) }
{
    to.write_all(text)?;
    Ok(())
}

// Writes what a stream prints at the end of the input.
pub(crate) fn write_end<W: Write>(to: &mut W, stream: Stream, text: &[u8]) -> Result<(), NotWritten>
    requires { text.now ≡ printed_at_end (streamed stream) }
    ensures { OnOk result (Appends (W.contents to.old) (W.contents to.new) (printed_at_end (streamed stream))) }
{
    to.write_all(text)?;
    Ok(())
}
