// The fields of a row: numbers at their right end, blanks before them.
ghost use Rattle.std.specs.Prelude.{◌≡◌, ◌+◌, ◌<◌, ◌^◌, decimal};
ghost use Rattle.sheet.specs.Field.{right, volts};

pub(crate) const BLANK: u8 = b' ';

// A number at the right end of W characters.
pub(crate) fn right<const W: usize>(number: u64) -> [u8; W]
    requires { (0 < W) × (number < 10 ^ W) }
    ensures { result ≡ right W (decimal number) }
{
    let mut field = [BLANK; W];
    let mut at = W - 1;
    field[at] = digit(number % 10);
    let mut rest = number / 10;
    while 0 < rest {
        at -= 1;
        field[at] = digit(rest % 10);
        rest /= 10;
    }
    field
}

// A voltage with two decimals, at the right end of six characters.
pub(crate) fn volts(voltage_cv: u16) -> [u8; 6]
    ensures { result ≡ right 6 (volts voltage_cv) }
{
    let cv = u64::from(voltage_cv);
    let [a, b, c] = right::<3>(cv / 100);
    [a, b, c, b'.', digit(cv / 10 % 10), digit(cv % 10)]
}

// The character of a decimal digit.
fn digit(value: u64) -> u8
    requires { value < 10 }
    ensures { result ≡ 48 + value }
{
    b'0' + value as u8
}
