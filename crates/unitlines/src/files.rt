// The files that the arguments name, each a session of its own, in their order. Where the output can't be written, the
// rest can't either.
use crate::arguments::Text;
use crate::buffers::Buffers;
use crate::messages::{not_opened, not_read};
use crate::output::NotWritten;
use crate::session::SessionError;
use command_line::{Argument, classify};
use std::fs::File;
use std::io::Read;

// Answers all files, or standard input where none is named. No option but `--` is left here.
pub(crate) fn answer_all<const N: usize>(
    rt: &HostRuntime,
    buffers: &mut Buffers<N>,
) -> Result<(), NotWritten> {
    let mut text = Text::new();
    let mut options = true;
    let mut named = false;
    for i in 1..usize::MAX {
        let Some(name) = text.argument(rt, i) else {
            break;
        };
        match classify(name, options) {
            Argument::EndOfOptions => options = false,
            Argument::Input => {
                named = true;
                answer_input(rt, buffers)?;
            }
            _ => {
                named = true;
                answer_file(rt, name, buffers)?;
            }
        }
    }
    if named {
        return Ok(());
    }
    answer_input(rt, buffers)
}

fn answer_input<const N: usize>(
    rt: &HostRuntime,
    buffers: &mut Buffers<N>,
) -> Result<(), NotWritten> {
    answer_reader(rt, &mut rt.stdin(), b"standard input", buffers)
}

fn answer_file<const N: usize>(
    rt: &HostRuntime,
    name: &[u8],
    buffers: &mut Buffers<N>,
) -> Result<(), NotWritten> {
    let Some(mut file) = opened(rt, name) else {
        not_opened(rt, name);
        return Ok(());
    };
    answer_reader(rt, &mut file, name, buffers)
}

// A file that can be read. A path of std is UTF-8, so a file with another name can't be opened.
fn opened(rt: &HostRuntime, name: &[u8]) -> Option<File> {
    let path = str::from_utf8(name).ok()?;
    File::open(rt, path).ok()
}

// Answers a reader's session. What can't be read is named and passed over.
fn answer_reader<const N: usize>(
    rt: &HostRuntime,
    from: &mut impl Read,
    name: &[u8],
    buffers: &mut Buffers<N>,
) -> Result<(), NotWritten> {
    match buffers.answer(from, &mut rt.stdout()) {
        Ok(()) => Ok(()),
        Err(SessionError::NotRead) => {
            not_read(rt, name);
            Ok(())
        }
        Err(SessionError::NotWritten) => Err(NotWritten),
    }
}
