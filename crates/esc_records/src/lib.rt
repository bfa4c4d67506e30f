// Records: bytes to typed records, and which are taken.
#![tactic(auto)]

mod admission;
mod reader;
mod record;

pub use admission::{admit, takes};
pub use record::{Record, read_record};
