// The board map both ways: its four bytes are the motors of lanes 0 to 3.
ghost use Rattle.std.specs.Prelude.{◌≡◌};
ghost use Rattle.base.specs.Reply.{replied, number_of};
ghost use Rattle.c_calls.specs.Lent.{lent_after};
ghost use Rattle.c_calls.specs.BoardMap.{motor_of_lane, lane_of_motor};

use crate::answer::store;
use airframe::{BoardMap, Motor};
use base::Refusal;
use esc_lanes::EscOutput;

// 0, and the number of the motor on a lane; or 5, 6 or 12.
#[unsafe(no_mangle)]
pub extern "C" fn esc_motor_of_lane(map: &[u8], lane: u8, motor: &mut u8) -> u8
    ensures value { result ≡ number_of (motor_of_lane map.now lane) }
    ensures motor_after { motor.new ≡ lent_after (motor_of_lane map.now lane) motor.old }
{
    store(motor_of_lane(map, lane), motor)
}

// 0, and the number of the lane that has a motor; or 5, 6 or 12.
#[unsafe(no_mangle)]
pub extern "C" fn esc_lane_of_motor(map: &[u8], motor: u8, lane: &mut u8) -> u8
    ensures value { result ≡ number_of (lane_of_motor map.now motor) }
    ensures lane_after { lane.new ≡ lent_after (lane_of_motor map.now motor) lane.old }
{
    store(lane_of_motor(map, motor), lane)
}

// The lowest number that fits: the map's length, 5, before the lane, 6, before the map's motors, 12.
#[tactic(auto, unfolding(airframe::specs::BoardMap::read_map, esc_lanes::specs::Output::read_lane))]
fn motor_of_lane(map: &[u8], lane: u8) -> Result<u8, Refusal>
    ensures { replied result ≡ motor_of_lane map.now lane }
{
    if map.len() != EscOutput::ALL.len() {
        return Err(Refusal::Length);
    }
    let output = EscOutput::try_from(lane)?;
    let map = BoardMap::try_from(map)?;
    Ok(u8::from(map.motor(output)))
}

// The same, with the motor in the lane's place.
#[tactic(auto, unfolding(airframe::specs::BoardMap::read_map, airframe::specs::Motor::read_motor))]
fn lane_of_motor(map: &[u8], motor: u8) -> Result<u8, Refusal>
    ensures { replied result ≡ lane_of_motor map.now motor }
{
    if map.len() != EscOutput::ALL.len() {
        return Err(Refusal::Length);
    }
    let motor = Motor::try_from(motor)?;
    let map = BoardMap::try_from(map)?;
    Ok(u8::from(map.output(motor)))
}
