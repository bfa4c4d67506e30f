// Words that every crate uses: a reply and the reasons of a refusal, a choice, numbers highest byte first, bytes handed over
// in a lent buffer, what may be missing, times and counts. No public function has a `requires`.
#![tactic(auto)]

mod lent;
mod refusal;
mod saturating;
mod time;

pub use lent::{copy, hand};
pub use refusal::Refusal;
pub use saturating::saturating_inc;
pub use time::elapsed_at_least;
