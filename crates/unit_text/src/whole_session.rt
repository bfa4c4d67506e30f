// A whole session: text in, text out.
ghost use Rattle.std.specs.Prelude.{◌≡◌, ◌≤◌, length};
ghost use Rattle.base.specs.BigEndian.{overwrite};
ghost use Rattle.base.specs.Handed.{handed_reply, handed_output};
ghost use Rattle.base.specs.Reply.{replied};
ghost use Rattle.unit_text.specs.Session.{session_text};

use crate::pieces::Pieces;
use base::{Refusal, copy};

// The answers to the lines of a text, from a unit that was never opened.
pub fn session(text: &[u8], out: &mut [u8]) -> Result<usize, Refusal>
    ensures result_value { replied result ≡ handed_reply (session_text text.now) (length out.old) }
    ensures out_after { out.new ≡ handed_output (session_text text.now) out.old }
{
    // An output that is too short stays as it was found, so the answers are counted first.
    let count = count_answers(text, out.len())?;
    write_answers(text, out);
    Ok(count)
}

// How long the answers are, or 9 where they do not fit: nothing behind the first piece that has no room is read.
fn count_answers(text: &[u8], room: usize) -> Result<usize, Refusal>
    ensures { replied result ≡ handed_reply (session_text text.now) room }
{
    let mut pieces = Pieces::new(text);
    let mut count: usize = 0;
    while let Some(n) = pieces.next() {
        if room - count < n {
            return Err(Refusal::Space);
        }
        count += n;
    }
    Ok(count)
}

// Writes the answers into an output that has room for them.
fn write_answers(text: &[u8], out: &mut [u8])
    requires { length (session_text text.now) ≤ length out.old }
    ensures { out.new ≡ overwrite 0 (session_text text.now) out.old }
{
    let mut pieces = Pieces::new(text);
    let mut end = 0;
    while let Some(n) = pieces.next() {
        copy(&pieces.piece, n, out, end);
        end += n;
    }
}
