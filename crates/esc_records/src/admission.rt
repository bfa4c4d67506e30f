// Whether a record is taken: the first of its refusals, and then whether the unit was opened.
ghost use Rattle.std.specs.Prelude.{◌≡◌, ◌||◌};
ghost use Rattle.base.specs.Reply.{replied};
ghost use Rattle.esc_records.specs.Admission.{opens, admitted_of};

use crate::record::{Record, read_record};
use base::Refusal;

// The record that the bytes stand for, if a unit that was opened, or was not, takes it.
#[tactic(auto, unfolding(crate::specs::Admission::admitted_of))]
pub fn admit(opened: bool, bytes: &[u8]) -> Result<Record, Refusal>
    ensures { replied result ≡ admitted_of opened bytes.now }
{
    let read = read_record(bytes)?;
    if !takes(opened, read) {
        return Err(Refusal::Unopened);
    }
    Ok(read)
}

// Whether a record is taken: the unit is open, or the record opens it.
pub fn takes(opened: bool, record: Record) -> bool
    ensures { result ≡ (opened || opens «record») }
{
    opened || opens(record)
}

// Whether it is a 00.
fn opens(record: Record) -> bool
    ensures { result ≡ opens «record» }
{
    matches!(record, Record::Open { .. })
}
