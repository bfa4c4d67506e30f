// Answers: one type for each shape that document 01 gives them, and their bytes.
#![tactic(auto)]

mod answer;
mod answer_bytes;
mod body;
mod counts;
mod numbers;
mod outcomes;
mod part;
mod samples;
mod write;

pub use answer::{AckAnswer, Answer, Delivered, Figure, UnitReport};
pub use answer_bytes::{AnswerBytes, LONGEST_ANSWER};
pub use body::encode;
pub use write::write_answer;
