// Sessions of the ESC telemetry unit as text: a record in hexadecimal on each line, an answer in
// hexadecimal on a line for each.
#![tactic(auto)]

mod answer;
mod pieces;
mod stream;
mod whole_session;

pub use stream::{Fed, LONGEST_LINE, Stream};
pub use whole_session::session;
