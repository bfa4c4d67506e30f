// Samples lent as bytes: as an answer has them, one behind the other. No public function has a `requires`.
#![tactic(auto)]

mod samples;

pub use samples::{SAMPLE_LEN, count_samples, read_sample};
