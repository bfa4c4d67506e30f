// What --help and --version print.
use crate::output::NotWritten;

// The project's version; tests/arguments.py holds the README to it.
pub(crate) fn print_version(rt: &HostRuntime) -> Result<(), NotWritten> {
    print(rt, b"unitlines 0.2.0\n")
}

pub(crate) fn print_help(rt: &HostRuntime) -> Result<(), NotWritten> {
    print(
        rt,
        b"usage: unitlines [--] [FILE]...\n\
        Answers records, one in hexadecimal on each line, with a line for each.\n\
        Each FILE is a session of its own; - is standard input, and so is no FILE.\n\
        \n\
        --help     prints this\n\
        --version  prints the version\n\
        --         ends the options: what follows names a FILE\n\
        \n\
        All went well if there are as many answers as lines and nothing is on standard error.\n",
    )
}

fn print(rt: &HostRuntime, text: &[u8]) -> Result<(), NotWritten> {
    rt.write_all(text)?;
    Ok(())
}
