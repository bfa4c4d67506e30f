// What a session is read into, and what its answers are written from.
ghost use Rattle.std.specs.Prelude.{◌≤◌, IfSome, OnOk};
ghost use Rattle.std.specs.Io.KnownBytes.{Appends};
ghost use Rattle.unit_text.specs.Session.{session_text};
ghost use Rattle.unit_text.specs.Stream.{longest_line};

use crate::session::{SessionError, run};
use std::io::{Read, Write};

#[derive(Drop)]
pub(crate) struct Buffers<const N: usize> {
    input: [u8; N],
    out: [u8; N],
    // Any answer fits.
    ghost room: { longest_line ≤ N },
}

impl<const N: usize> Buffers<N> {
    // Two of N bytes each.
    pub(crate) fn new() -> Self
        requires { longest_line ≤ N }
    {
        Self {
            input: [0; N],
            out: [0; N],
        }
    }

    // Answers a session to the end of its input. Where the bytes that are read and written are known, those written are the
    // text of the session that those read are.
    pub(crate) fn answer<R: Read, W: Write>(
        &mut self,
        from: &mut R,
        to: &mut W,
    ) -> Result<(), SessionError>
        ensures { OnOk result (IfSome (R.remaining from.old)
            (λ text. Appends (W.contents to.old) (W.contents to.new) (session_text text))) }
    {
        run(from, to, &mut self.input, &mut self.out)
    }
}
