// The board map: which motor is wired to which output lane.
ghost use Rattle.std.specs.Prelude.{◌≡◌};
ghost use Rattle.base.specs.Reply.{replied};
ghost use Rattle.airframe.specs.BoardMap.{motor_on, motor_on_byte, output_with, output_with_byte, read_map};

use crate::motor::{Motor, motor_of};
use crate::once::each_once;
use base::Refusal;
use esc_lanes::{EscOutput, Lane};

// The motor on each output, in the order of the lanes.
#[derive(Clone, Copy)]
pub struct BoardMap {
    motors: [Motor; 4],
}

// The bytes are the motors of lanes 0 to 3, in that order: 5 where they are not four, 12 where they
// are not each of 1 to 4 once.
impl TryFrom<&[u8]> for BoardMap {
    type Error = Refusal;

    ghost try_from_gives = { λ bytes read. replied read ≡ read_map bytes.now };

    #[tactic(auto, unfolding(crate::specs::BoardMap::read_map, crate::specs::BoardMap::map_of))]
    fn try_from(bytes: &[u8]) -> Result<BoardMap, Refusal> {
        let &[first, second, third, fourth] = bytes else {
            return Err(Refusal::Length);
        };
        if !each_once(bytes) {
            return Err(Refusal::Map);
        }
        Ok(BoardMap {
            motors: [first, second, third, fourth].map(motor_of),
        })
    }
}

impl BoardMap {
    // The motor on a lane.
    pub fn motor(self, output: EscOutput) -> Motor
        ensures { result ≡ motor_on self output }
    {
        self.motors[output.index()]
    }

    // The same of a lane's byte.
    pub fn motor_of_lane(self, lane: u8) -> Result<Motor, Refusal>
        ensures { replied result ≡ motor_on_byte self lane }
    {
        let output = EscOutput::try_from(lane)?;
        Ok(self.motor(output))
    }

    // The first output that has the motor. A map that was read has it on one alone.
    #[tactic(auto, unfolding(crate::specs::BoardMap::output_with))]
    pub fn output(self, motor: Motor) -> EscOutput
        ensures { result ≡ output_with self motor }
    {
        EscOutput::ALL
            .iter()
            .copied()
            .find(|&output| self.motor(output) == motor)
            .unwrap_or(EscOutput(Lane::Output4))
    }

    // The same of a motor's byte.
    pub fn output_of_motor(self, byte: u8) -> Result<EscOutput, Refusal>
        ensures { replied result ≡ output_with_byte self byte }
    {
        let motor = Motor::try_from(byte)?;
        Ok(self.output(motor))
    }
}
