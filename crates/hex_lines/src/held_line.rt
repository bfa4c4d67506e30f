// What the chunks so far hold of a line that is not ended: its first 59 characters. That is one more than the widest line has,
// so that a line that is too wide needs no mark.
ghost use Rattle.std.specs.Prelude.{◌≤◌};

pub const HELD: usize = 59;

#[derive(Clone, Copy)]
pub struct HeldLine {
    characters: [u8; HELD],
    count: usize,
    ghost within: { count ≤ 59 },
}

impl HeldLine {
    ghost use Rattle.std.specs.Prelude.{◌≡◌, ◌==◌, [], ◌++◌, length, take};
    ghost use Rattle.hex_lines.specs.HeldLine.{held_characters};
    ghost use Rattle.hex_lines.specs.Line.{most_held};

    // No line begun.
    pub fn new() -> Self
        ensures { held_characters result ≡ [] }
    {
        HeldLine {
            characters: [0; HELD],
            count: 0,
        }
    }

    // How many characters are held.
    pub fn len(&self) -> usize
        ensures { result ≡ length (held_characters self.now) }
    {
        self.characters().len()
    }

    // Whether no line is begun.
    pub fn is_empty(&self) -> bool
        ensures { result ≡ length (held_characters self.now) == 0 }
    {
        self.count == 0
    }

    // The characters.
    pub(crate) fn characters(&self) -> &[u8]
        ensures { result.now ≡ held_characters self.now }
    {
        &self.characters[..self.count]
    }

    // Holds more of the line, as much as there is room for. The characters are stored one by one: for `copy_from_slice` of any length the compiler
    // calls `memmove`, which an archive for C then asks for.
    pub(crate) fn hold(&mut self, more: &[u8])
        ensures { held_characters self.new ≡ take most_held (held_characters self.old ++ more.now) }
    {
        let from = self.count;
        let n = more.len().min(HELD - from);
        for (i, &character) in more[..n].iter().enumerate() {
            self.characters[from + i] = character;
        }
        self.count = from + n;
    }

    // Begins anew.
    pub(crate) fn clear(&mut self)
        ensures { held_characters self.new ≡ [] }
    {
        self.count = 0;
    }
}
