// The digits of a line: 0-9, a-f and A-F when it is read, 0-9 and a-f when it is printed.
ghost use Rattle.std.specs.Prelude.{◌≡◌, ◌<◌};
ghost use Rattle.hex_lines.specs.Digit.{value_of, is_digit, pair_of, glyph_of, DigitTabled};

// The value of each character. A line is read by this table: it is made once, before a loop, and lent.
#[derive(Clone, Copy)]
pub struct Digits {
    values: [Option<u8>; 256],
    ghost tabled: { DigitTabled values },
}

impl Digits {
    // The table. No character before 0 or behind f is a digit, so these are passed over: it is made for each piece of a session, however
    // short.
    pub fn new() -> Self {
        let mut values = [None; 256];
        for character in b'0'..b'g' {
            values[usize::from(character)] = value_of(character);
        }
        Digits { values }
    }

    // The byte of two digits.
    #[tactic(auto, unfolding(crate::specs::Digit::pair_of, crate::specs::Digit::value_of))]
    pub fn pair(&self, first: u8, second: u8) -> Option<u8>
        ensures { result ≡ pair_of first second }
    {
        let high = self.value(first)?;
        let low = self.value(second)?;
        Some(high * 16 + low)
    }

    // Whether a character is a digit.
    #[tactic(auto, unfolding(crate::specs::Digit::value_of))]
    pub(crate) fn is_digit(&self, character: u8) -> bool
        ensures { result ≡ is_digit character }
    {
        self.value(character).is_some()
    }

    fn value(&self, character: u8) -> Option<u8>
        ensures { result ≡ value_of character }
    {
        self.values[usize::from(character)]
    }
}

// The value of a digit.
#[tactic(auto, unfolding(crate::specs::Digit::value_of, crate::specs::Digit::digit_of, crate::specs::Digit::small, crate::specs::Digit::small_digit))]
fn value_of(character: u8) -> Option<u8>
    ensures { result ≡ value_of character }
{
    match character {
        b'0'..=b'9' => Some(character - b'0'),
        b'a'..=b'f' => Some(character - b'a' + 10),
        b'A'..=b'F' => Some(character - b'A' + 10),
        _ => None,
    }
}

// The character of a value.
#[tactic(auto, unfolding(crate::specs::Digit::glyph_of))]
pub(crate) fn glyph(value: u8) -> u8
    requires { value < 16 }
    ensures { result ≡ glyph_of value }
{
    if value < 10 {
        value + b'0'
    } else {
        value - 10 + b'a'
    }
}
