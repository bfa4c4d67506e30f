// Calls for C and Rust: a whole session, and on the parts the CRC, the frame both ways, the parser over a
// stream, the capture search, Due, the board map both ways, a motor's speed and the paper sheet.
//
// A slice is a pointer and a length. A lent buffer that is too short is refused with 9, and what is lent is
// left as it was found wherever a call is refused.
#![tactic(auto)]

mod answer;
mod board_map;
mod capture;
mod crc;
mod frame;
mod paper_sheet;
mod session;
mod speed;
mod stream;
mod time;

pub use board_map::{esc_lane_of_motor, esc_motor_of_lane};
pub use capture::esc_find_frame;
pub use crc::esc_crc8;
pub use frame::{esc_frame_read, esc_frame_write};
pub use paper_sheet::esc_sheet;
pub use session::esc_unit_session;
pub use speed::esc_motor_speed;
pub use stream::esc_stream_parse;
pub use time::esc_elapsed_at_least;
