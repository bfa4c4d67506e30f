// The airframe's motors, the board map between them and the output lanes, and a motor's speed. No
// public function has a `requires`.
#![tactic(auto)]

mod board_map;
mod magnets;
mod motor;
mod once;
mod speed;

pub use board_map::BoardMap;
pub use magnets::Magnets;
pub use motor::{Motor, MotorNumber};
pub use speed::motor_speed;
