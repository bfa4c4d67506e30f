// Why a call is refused.
ghost use Rattle.base.specs.Reply.{refusal_number};
ghost use Rattle.std.specs.Prelude.{◌≡◌};

// The twelve reasons, each with its number in document 01.
#[derive(Clone, Copy, Debug, PartialEq, Eq)]
pub enum Refusal {
    // A line has over 58 characters.
    WideLine = 1,
    // A character is no digit.
    Digit = 2,
    // An odd count of characters.
    HalfByte = 3,
    // No record, or one whose first byte names no kind.
    Kind = 4,
    // A record, a frame or a map that has not as many bytes as it must.
    Length = 5,
    // A lane above 3, or a motor that is not 1 to 4.
    Lane = 6,
    // An armed byte above 1.
    Flag = 7,
    // A record of any other kind before the first 00.
    Unopened = 8,
    // The lent output is shorter than what is written.
    Space = 9,
    // A frame's tenth byte is not the CRC of the nine.
    CheckByte = 10,
    // A count of magnets that is zero or odd.
    Magnets = 11,
    // A map that has not each of 1 to 4 once.
    Map = 12,
}

// The number of a reason, 1 to 12.
impl From<Refusal> for u8 {
    ghost from_gives = { λ refusal number. number ≡ refusal_number refusal };

    fn from(refusal: Refusal) -> u8 {
        refusal as u8
    }
}
