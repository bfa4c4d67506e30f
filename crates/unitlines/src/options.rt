// The first look at the arguments, before anything is opened.
use crate::arguments::Text;
use command_line::{Argument, classify};
use std::rt::Env;

// What an option asks for in place of answers.
#[derive(Drop)]
pub(crate) enum Asked {
    Help,
    Version,
    // An option that there is not.
    Unknown(Text),
}

// What the first option asks, wherever it stands. None where the files are to be answered.
pub(crate) fn first_option(rt: &impl Env) -> Option<Asked> {
    let mut text = Text::new();
    for i in 1..usize::MAX {
        match classify(text.argument(rt, i)?, true) {
            Argument::Help => return Some(Asked::Help),
            Argument::Version => return Some(Asked::Version),
            Argument::UnknownOption => return Some(Asked::Unknown(text)),
            Argument::EndOfOptions => return None,
            Argument::Input | Argument::File => {}
        }
    }
    None
}
