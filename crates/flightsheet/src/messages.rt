// All that reaches standard error. Where that can't be written there is nowhere to say so.
use base::Refusal;
use std::io::Write;

// A line that is no answer, and no refusal's number.
pub(crate) fn no_answer<E: Write>(errors: &mut E, line: u64) {
    let _ = writeln!(errors, "flightsheet: line {line}: no answer");
}

pub(crate) fn passed_over<E: Write>(errors: &mut E, lines: u64) {
    let _ = writeln!(errors, "flightsheet: lines passed over: {lines}");
}

pub(crate) fn not_read<E: Write>(errors: &mut E) {
    let _ = errors.write_all(b"flightsheet: standard input: could not be read\n");
}

pub(crate) fn not_written<E: Write>(errors: &mut E) {
    let _ = errors.write_all(b"flightsheet: standard output: could not be written\n");
}

// Words of the command line that make no craft, with the number that fits.
pub(crate) fn bad_words<E: Write>(errors: &mut E, refusal: Refusal) {
    let number = u8::from(refusal);
    let why = match refusal {
        Refusal::Length => "the map is not four motors",
        Refusal::Magnets => "the magnets are not an even number from 2 to 254",
        _ => "the map has not each of 1 to 4 once",
    };
    let _ = writeln!(errors, "flightsheet: {number}: {why}");
}

// How the program is called.
pub(crate) fn usage<E: Write>(errors: &mut E) {
    let _ = errors.write_all(b"usage: flightsheet MAP MAGNETS\n");
}
