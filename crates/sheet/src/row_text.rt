// The characters of a row, one piece behind the other.
ghost use Rattle.std.specs.Prelude.{◌≡◌, ℕ, ◌+◌, ◌≤◌, List, [], ◌++◌, length, take};

use crate::field::BLANK;
use std::marker::Model;

// As many as a row has: 53 and an LF.
pub(crate) const ROW_LEN: usize = 54;

#[derive(Drop)]
pub(crate) struct RowText {
    characters: [u8; ROW_LEN],
    len: usize,
}

impl Model for RowText {
    ghost Value = { List ℕ };

    ghost view = { λ r. take r.len r.characters };

    ghost invariant = { λ r. r.len ≤ 54 };
}

impl RowText {
    // None yet.
    pub(crate) fn new() -> Self
        ensures { result ≡ [] }
    {
        Self {
            characters: [BLANK; ROW_LEN],
            len: 0,
        }
    }

    // Puts a piece behind those that are there.
    pub(crate) fn put(&mut self, piece: &[u8])
        requires { length self.old + length piece.now ≤ 54 }
        ensures { self.new ≡ self.old ++ piece.now }
    {
        let end = self.len + piece.len();
        self.characters[self.len..end].copy_from_slice(piece);
        self.len = end;
    }

    // The characters, to be written.
    pub(crate) fn as_slice(&self) -> &[u8]
        ensures { result.now ≡ self.now }
    {
        &self.characters[..self.len]
    }
}
