// Lines of hexadecimal characters and the bytes that they stand for: a line read from the front of a chunk, and
// bytes printed as a line.
//
// A part of `unit_text`, as `record_lines` is, and for those two alone: `print_line` has a `requires`, which `unit_text`
// proves at each call. The public calls, which ask nothing, are `Stream` and `session` of `unit_text`.
#![tactic(auto)]

pub mod digits;
pub mod held_line;
pub mod line;
pub mod next_line;
