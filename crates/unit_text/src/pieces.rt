// The answers to a text, printed a piece at a time.
ghost use Rattle.std.specs.Prelude.{◌≡◌};
ghost use Rattle.unit_text.specs.Session.{session_text};
ghost use Rattle.unit_text.specs.Pieces.{left_text, NextPiece};

use crate::stream::Stream;

// How much is printed at a time.
const PIECE: usize = 4096;

// The stream so far, what is left of the text, which is none behind the end of input, and a buffer for a piece.
#[derive(Drop)]
pub(crate) struct Pieces<'text> {
    stream: Stream,
    rest: Option<&'text [u8]>,
    pub(crate) piece: [u8; PIECE],
}

impl<'text> Pieces<'text> {
    // From a unit that was never opened.
    #[tactic(auto, using(crate::proofs::SessionLaws::whole_text))]
    pub(crate) fn new(text: &'text [u8]) -> Self
        ensures { left_text result ≡ session_text text.now }
    {
        Self {
            stream: Stream::new(),
            rest: Some(text),
            piece: [0; PIECE],
        }
    }

    // Prints the next piece to the front of `piece`, and gives how long it is; the last one is that of the end of input.
    pub(crate) fn next(&mut self) -> Option<usize>
        ensures { NextPiece self.old result self.new }
    {
        let rest = self.rest?;
        if rest.is_empty() {
            self.rest = None;
            // A piece has room for any answer, so this is not refused.
            return self.stream.finish(&mut self.piece).ok();
        }
        let fed = self.stream.feed(rest, &mut self.piece);
        self.stream = fed.stream;
        self.rest = Some(&rest[fed.used..]);
        Some(fed.written)
    }
}
