// A flight from a reader to a writer: answers in, its sheet out. It only reads and writes; what is filed is the flight's.
ghost use Rattle.std.specs.Prelude.{◌<◌, length, IfSome, OnOk};
ghost use Rattle.std.specs.Io.KnownBytes.{Appends};
ghost use Rattle.flightsheet.specs.Flight.{flight_sheet};

use crate::craft::Craft;
use crate::flight::Flight;
use crate::output::NotWritten;
use std::io::{Read, Write};

// Why a sheet is not whole.
#[derive(Clone, Copy, Debug, PartialEq, Eq)]
pub(crate) enum RunError {
    NotRead,
    NotWritten,
}

impl From<NotWritten> for RunError {
    fn from(_error: NotWritten) -> RunError {
        RunError::NotWritten
    }
}

// Reads to the end of input, and says how many lines were passed over. A loop has to end, and nothing says that the input
// does: the count of reads ends it, and no input is that long. Where the bytes that are read and written are known, those
// written are the sheet of the text of those read.
pub(crate) fn run<R: Read, W: Write, E: Write>(
    craft: Craft,
    from: &mut R,
    to: &mut W,
    errors: &mut E,
    input: &mut [u8],
) -> Result<u64, RunError>
    ensures { 0 < length input.old → OnOk result (IfSome (R.remaining from.old)
        (λ text. Appends (W.contents to.old) (W.contents to.new) (flight_sheet craft.map craft.magnets text))) }
{
    let mut flight = Flight::new(craft);
    for _ in 0..u64::MAX {
        let Ok(n) = from.read(input) else {
            return Err(RunError::NotRead);
        };
        if n == 0 {
            let passed_over = flight.finish(to, errors)?;
            return Ok(passed_over);
        }
        flight.take(&input[..n], to, errors)?;
    }
    Err(RunError::NotRead)
}
