// BLHeli/KISS-style ESC telemetry: a port of ferrowasp-blheli-telemetry's lib.rs, with a frame
// writer and a capture search added.
//
// The frame is ten bytes with no sync byte and no motor identifier, so the caller associates a
// frame with the lane that it asked. No public function has a `requires`.
#![tactic(auto)]

mod big_endian;
mod capture;
mod crc;
mod crc_table;
mod frame;
mod parser;

pub use capture::find_frame;
pub use crc::crc8;
pub use frame::{EscTelemetry, FRAME_LEN, decode, encode};
pub use parser::{ParserStats, Pushed, StreamParser};
