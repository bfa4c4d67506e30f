// The words of the command line.
use command_line::{Argument, classify};
use std::env::FillError;
use std::rt::Env;

// As much as is looked at of a word.
pub(crate) const LOOKED_AT: usize = 16;

// Stands in the place of what is cut off.
const CUT: u8 = b'.';

// What the words ask for.
#[derive(Clone, Copy, Debug, PartialEq, Eq)]
pub(crate) enum Asked {
    Help,
    Version,
    // The sheet of a craft, whose map and magnets are the two words.
    Sheet,
    // There are not two words, or one of them begins as an option does and is none.
    Nothing,
}

// What the words ask for: the first option decides, wherever it stands.
pub(crate) fn what_is_asked(rt: &impl Env) -> Asked {
    let mut held = [0u8; LOOKED_AT];
    for i in 1..usize::MAX {
        let Some(text) = word(rt, i, &mut held) else {
            return if i == 3 { Asked::Sheet } else { Asked::Nothing };
        };
        match classify(text, true) {
            Argument::Help => return Asked::Help,
            Argument::Version => return Asked::Version,
            Argument::File => {}
            _ => return Asked::Nothing,
        }
    }
    Asked::Nothing
}

// A word. Of a longer one what is looked at ends in a mark, so that it is no option, no map and no number. None behind the last.
pub(crate) fn word<'a>(rt: &impl Env, i: usize, held: &'a mut [u8; LOOKED_AT]) -> Option<&'a [u8]> {
    match rt.arg(i, held) {
        Ok(n) => held.get(..n),
        Err(FillError::TooLong) => {
            held[LOOKED_AT - 1] = CUT;
            Some(held)
        }
        Err(FillError::NotPresent) => None,
    }
}
