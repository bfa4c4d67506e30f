// The kinds of records: what each does to the manager and the books, and what it is answered.
#![tactic(auto)]

mod opened;

pub use opened::{Opened, Stepped};
