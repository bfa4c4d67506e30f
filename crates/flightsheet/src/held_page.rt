// The samples of a page that is not full, one behind the other.
ghost use Rattle.std.specs.Prelude.{◌≡◌, ℕ, ◌+◌, ◌≤◌, ◌==◌, List, [], ◌++◌, length, take};

use lent_samples::SAMPLE_LEN;
use sheet::PAGE_SAMPLES;
use std::marker::Model;

const HELD: usize = SAMPLE_LEN * PAGE_SAMPLES;

#[derive(Drop)]
pub(crate) struct HeldPage {
    bytes: [u8; HELD],
    len: usize,
}

impl Model for HeldPage {
    ghost Value = { List ℕ };

    ghost view = { λ p. take p.len p.bytes };

    ghost invariant = { λ p. p.len ≤ 880 };
}

impl HeldPage {
    // None yet.
    pub(crate) fn new() -> Self
        ensures { result ≡ [] }
    {
        Self {
            bytes: [0; HELD],
            len: 0,
        }
    }

    pub(crate) fn is_empty(&self) -> bool
        ensures { result ≡ length self.now == 0 }
    {
        self.len == 0
    }

    // Whether there are as many as a page has.
    pub(crate) fn is_full(&self) -> bool
        ensures { result ≡ length self.now == 880 }
    {
        self.len == HELD
    }

    // Holds one more, where there is room.
    pub(crate) fn hold(&mut self, sample: &[u8; SAMPLE_LEN])
        ensures { length self.old + 22 ≤ 880 → self.new ≡ self.old ++ sample.now }
    {
        let end = self.len + SAMPLE_LEN;
        if end <= HELD {
            self.bytes[self.len..end].copy_from_slice(sample);
            self.len = end;
        }
    }

    // Begins anew.
    pub(crate) fn clear(&mut self)
        ensures { self.new ≡ [] }
    {
        self.len = 0;
    }

    pub(crate) fn as_slice(&self) -> &[u8]
        ensures { result.now ≡ self.now }
    {
        &self.bytes[..self.len]
    }
}
