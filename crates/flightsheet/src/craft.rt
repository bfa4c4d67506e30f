// The craft that a sheet is of, from the two words of the command line.
use airframe::{BoardMap, Magnets};
use base::Refusal;

// Its board map, and how many magnets a motor has.
#[derive(Clone, Copy)]
pub(crate) struct Craft {
    pub(crate) map: BoardMap,
    pub(crate) magnets: u8,
}

impl Craft {
    ghost use Rattle.std.specs.Prelude.{◌≡◌, Some};
    ghost use Rattle.base.specs.Reply.{replied};
    ghost use Rattle.flightsheet.specs.Craft.{craft_of, magnets_of_word, number_of_word, with_digit};

    // The craft of a word of four motors and a word for a number; or 5, 11 or 12.
    #[tactic(auto, unfolding(crate::specs::Craft::craft_of))]
    pub(crate) fn of_words(motors: &[u8], magnets: &[u8]) -> Result<Craft, Refusal>
        ensures { replied result ≡ craft_of motors.now magnets.now }
    {
        let &[first, second, third, fourth] = motors else {
            return Err(Refusal::Length);
        };
        let magnets = Craft::magnets(magnets)?;
        let motors = [first, second, third, fourth].map(|digit| digit.saturating_sub(b'0'));
        let map = BoardMap::try_from(motors.as_slice())?;
        Ok(Craft { map, magnets })
    }

    // How many magnets a word says; or 11.
    fn magnets(word: &[u8]) -> Result<u8, Refusal>
        ensures { replied result ≡ magnets_of_word word.now }
    {
        let Some(number) = Craft::number(word) else {
            return Err(Refusal::Magnets);
        };
        Magnets::try_from(number)?;
        Ok(number)
    }

    // The number of a word of decimal digits. None of any other word, or above 255.
    #[tactic(auto, unfolding(crate::specs::Craft::number_of_word))]
    fn number(word: &[u8]) -> Option<u8>
        ensures { result ≡ number_of_word word.now }
    {
        if word.is_empty() {
            return None;
        }
        let mut number: u8 = 0;
        for &digit in word {
            number = Craft::with_digit(number, digit)?;
        }
        Some(number)
    }

    // A number with a digit more.
    #[tactic(auto, unfolding(crate::specs::Craft::with_digit))]
    fn with_digit(number: u8, digit: u8) -> Option<u8>
        ensures { result ≡ with_digit (Some number) digit }
    {
        if !digit.is_ascii_digit() {
            return None;
        }
        number.checked_mul(10)?.checked_add(digit - b'0')
    }
}
