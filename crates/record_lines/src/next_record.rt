// The record of the next line at the front of a chunk.
ghost use Rattle.hex_lines.specs.HeldLine.{held_characters};
ghost use Rattle.record_lines.specs.NextRecord.{NextRecordFrom, NextAdmittedFrom};

use base::Refusal;
use esc_records::{Record, admit};
use hex_lines::digits::Digits;
use hex_lines::held_line::HeldLine;
use hex_lines::line::LONGEST_RECORD;
use hex_lines::next_line::next_line;

// The record that a line stands for, or why it stands for none or none is taken; and the place behind the line's LF.
#[derive(Clone, Copy)]
pub struct EndedRecord {
    pub record: Result<Record, Refusal>,
    pub behind: usize,
}

// Reads the line that begins with what is held and goes on in the chunk, and its record. Where the chunk ends before the line
// does, there is none, and what there is of the line is held.
#[tactic(auto, using(crate::proofs::Opened::next_taken))]
pub fn next_record(digits: &Digits, chunk: &[u8], line: &mut HeldLine) -> Option<EndedRecord>
    ensures { NextRecordFrom (held_characters line.old) chunk.now result (held_characters line.new) }
{
    next_admitted(digits, chunk, line, true)
}

// The same, of a unit that was opened, or was not: its record as that unit takes it.
pub fn next_admitted(
    digits: &Digits,
    chunk: &[u8],
    line: &mut HeldLine,
    opened: bool,
) -> Option<EndedRecord>
    ensures { NextAdmittedFrom opened (held_characters line.old) chunk.now result (held_characters line.new) }
{
    let mut bytes = [0; LONGEST_RECORD];
    let ended = next_line(digits, chunk, line, &mut bytes)?;
    Some(EndedRecord {
        record: ended.read.and_then(|bytes| admit(opened, bytes)),
        behind: ended.behind,
    })
}

#[cfg(test)]
mod tests {
    use super::*;
    use std::test::Fail;

    // A line in two pieces, and one that stands for no record: neither asks whether a unit was opened. As one that was not takes it,
    // the first is refused.
    #[test]
    fn a_record_stands_before_an_opening(rt: HostRuntime) -> Result<(), Fail> {
        let digits = Digits::new();
        let mut line = HeldLine::new();
        assert!(rt; next_record(&digits, b"0", &mut line).is_none());
        let ended = next_record(&digits, b"6\n0f\n", &mut line);
        assert!(rt;
            matches!(
                ended,
                Some(EndedRecord {
                    record: Ok(Record::WireDiscontinuity),
                    behind: 2
                })
            )
        );
        let ended = next_record(&digits, b"0f\n", &mut line);
        assert!(rt;
            matches!(
                ended,
                Some(EndedRecord {
                    record: Err(Refusal::Kind),
                    behind: 3
                })
            )
        );
        let ended = next_admitted(&digits, b"06\n", &mut line, false);
        assert!(rt;
            matches!(
                ended,
                Some(EndedRecord {
                    record: Err(Refusal::Unopened),
                    behind: 3
                })
            )
        );
        Ok(())
    }
}
