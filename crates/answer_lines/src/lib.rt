// What a line of answers, as `unitlines` prints them, tells to a program that makes sheets of the delivered samples. No public
// function has a `requires`.
#![tactic(auto)]

mod line;
mod told;

pub use line::AnswerLine;
pub use told::Told;
