// The program: lines of records from files or standard input, a line with the answer to each on
// standard output.
#![tactic(auto)]

mod arguments;
mod buffers;
mod files;
mod messages;
mod options;
mod output;
mod session;
mod texts;

use crate::buffers::Buffers;
use crate::files::answer_all;
use crate::messages::{not_written, unknown_option};
use crate::options::{Asked, first_option};
use crate::output::NotWritten;
use crate::texts::{print_help, print_version};

fn main(rt: HostRuntime) {
    if answer_arguments(&rt).is_err() {
        not_written(&rt);
    }
}

// Does what the first option asks, or answers the files where there is none.
fn answer_arguments(rt: &HostRuntime) -> Result<(), NotWritten> {
    match first_option(rt) {
        Some(Asked::Help) => print_help(rt),
        Some(Asked::Version) => print_version(rt),
        Some(Asked::Unknown(text)) => {
            unknown_option(rt, text.as_slice());
            Ok(())
        }
        None => answer_all(rt, &mut Buffers::<65536>::new()),
    }
}
