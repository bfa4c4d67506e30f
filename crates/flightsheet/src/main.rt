// The program: answers from standard input, the sheet of the samples that they deliver on standard output.
#![tactic(auto)]

mod craft;
mod flight;
mod held_page;
mod messages;
mod output;
mod pages;
mod run;
mod texts;
mod words;

use crate::craft::Craft;
use crate::messages::{bad_words, not_read, not_written, passed_over, usage};
use crate::output::NotWritten;
use crate::run::{RunError, run};
use crate::texts::{print_help, print_version};
use crate::words::{Asked, LOOKED_AT, what_is_asked, word};
use base::Refusal;
use std::process::ExitCode;

// What the exit status says.
#[derive(Clone, Copy)]
enum Status {
    Done = 0,
    // Something was named on standard error.
    Named = 1,
    // The words of the command line make no sheet.
    BadWords = 2,
}

fn main(rt: HostRuntime) -> ExitCode {
    let status = match what_is_asked(&rt) {
        Asked::Help => printed(&rt, print_help(&mut rt.stdout())),
        Asked::Version => printed(&rt, print_version(&mut rt.stdout())),
        Asked::Sheet => filed(&rt),
        Asked::Nothing => {
            usage(&mut rt.stderr());
            Status::BadWords
        }
    };
    ExitCode::from(status as u8)
}

// The status of a text that was asked for.
fn printed(rt: &HostRuntime, printed: Result<(), NotWritten>) -> Status {
    match printed {
        Ok(()) => Status::Done,
        Err(NotWritten) => {
            not_written(&mut rt.stderr());
            Status::Named
        }
    }
}

// Files the sheet of the two words' craft.
fn filed(rt: &HostRuntime) -> Status {
    match craft_of_words(rt) {
        Ok(craft) => filed_for(rt, craft),
        Err(refusal) => {
            bad_words(&mut rt.stderr(), refusal);
            Status::BadWords
        }
    }
}

fn craft_of_words(rt: &HostRuntime) -> Result<Craft, Refusal> {
    let mut map = [0u8; LOOKED_AT];
    let mut magnets = [0u8; LOOKED_AT];
    let (Some(map), Some(magnets)) = (word(rt, 1, &mut map), word(rt, 2, &mut magnets)) else {
        return Err(Refusal::Length);
    };
    Craft::of_words(map, magnets)
}

fn filed_for(rt: &HostRuntime, craft: Craft) -> Status {
    let errors = &mut rt.stderr();
    match run(
        craft,
        &mut rt.stdin(),
        &mut rt.stdout(),
        errors,
        &mut [0u8; 65536],
    ) {
        Ok(0) => return Status::Done,
        Ok(lines) => passed_over(errors, lines),
        Err(RunError::NotRead) => not_read(errors),
        Err(RunError::NotWritten) => not_written(errors),
    }
    Status::Named
}
