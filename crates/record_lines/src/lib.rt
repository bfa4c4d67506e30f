// Lines and the records that they stand for: the record of the next line of a chunk, and a line with a wire byte read
// straight into its numbers.
//
// A part of `unit_text`, for it alone.
#![tactic(auto)]

pub mod next_record;
pub mod wire_line;
