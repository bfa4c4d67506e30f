// The bytes of an answer: a list that has room for any answer's.
ghost use Rattle.std.specs.Prelude.{◌≤◌};

// As much as any answer takes.
pub const LONGEST_ANSWER: usize = 43;

#[derive(Clone, Copy)]
pub struct AnswerBytes {
    bytes: [u8; LONGEST_ANSWER],
    len: usize,
    ghost within: { len ≤ 43 },
}

impl AnswerBytes {
    ghost use Rattle.std.specs.Prelude.{◌≡◌, ◌+◌, ◌<◌, [], ◌∷◌, ◌++◌, length};
    ghost use Rattle.esc_answers.specs.Answer.{longest_answer};
    ghost use Rattle.esc_answers.specs.Encoded.{encoded_of};

    // The bytes, to be sent or printed.
    pub fn as_slice(&self) -> &[u8]
        ensures value { result.now ≡ encoded_of self.now }
        ensures fits { length result.now ≤ longest_answer }
    {
        &self.bytes[..self.len]
    }

    // The 00 with which each answer begins.
    pub(crate) fn accepted() -> Self
        ensures { encoded_of result ≡ 0x00 ∷ [] }
    {
        Self {
            bytes: [0x00; LONGEST_ANSWER],
            len: 1,
        }
    }

    pub(crate) fn push(&mut self, byte: u8)
        requires { length (encoded_of self.old) < longest_answer }
        ensures { encoded_of self.new ≡ encoded_of self.old ++ byte ∷ [] }
    {
        self.bytes[self.len] = byte;
        self.len += 1;
    }

    pub(crate) fn extend_from_slice(&mut self, bytes: &[u8])
        requires { length (encoded_of self.old) + length bytes.now ≤ longest_answer }
        ensures { encoded_of self.new ≡ encoded_of self.old ++ bytes.now }
    {
        let end = self.len + bytes.len();
        self.bytes[self.len..end].copy_from_slice(bytes);
        self.len = end;
    }
}
