// What --help and --version print.
use crate::output::NotWritten;
use std::io::Write;

// The program's version; tests/sheets.py holds the README to it.
pub(crate) fn print_version<W: Write>(to: &mut W) -> Result<(), NotWritten> {
    to.write_all(b"flightsheet 0.1.0\n")?;
    Ok(())
}

pub(crate) fn print_help<W: Write>(to: &mut W) -> Result<(), NotWritten> {
    to.write_all(
        b"usage: flightsheet MAP MAGNETS\n\
        Prints the sheet of the samples that answers deliver, one answer on each line of\n\
        standard input: unitlines < SESSION | flightsheet 4213 14 > SHEET\n\
        \n\
        MAP        the motors of lanes 0 to 3, a digit each\n\
        MAGNETS    how many magnets a motor has\n\
        --help     prints this\n\
        --version  prints the version\n\
        \n\
        Exit status: 0 all went well; 1 a line was no answer, or the input could not be read\n\
        or the output written; 2 the words are bad. Standard error says which.\n",
    )?;
    Ok(())
}
