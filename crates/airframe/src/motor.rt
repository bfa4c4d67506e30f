// A motor of the airframe, 1 to 4. It is no output lane: the board map alone turns one into the
// other.
ghost use Rattle.std.specs.Prelude.{◌≡◌};
ghost use Rattle.base.specs.Reply.{replied};
ghost use Rattle.airframe.specs.Motor.{motor_number, motor_of, read_motor};

use base::Refusal;

#[derive(Clone, Copy, PartialEq, Eq)]
pub enum MotorNumber {
    One = 1,
    Two = 2,
    Three = 3,
    Four = 4,
}

#[derive(Clone, Copy, PartialEq, Eq)]
pub struct Motor(pub MotorNumber);

// The motor of a number, or 6 where it is not 1 to 4.
impl TryFrom<u8> for Motor {
    type Error = Refusal;

    ghost try_from_gives = { λ byte read. replied read ≡ read_motor byte };

    #[tactic(auto, unfolding(crate::specs::Motor::read_motor))]
    fn try_from(byte: u8) -> Result<Motor, Refusal> {
        if (1..=4).contains(&byte) {
            Ok(motor_of(byte))
        } else {
            Err(Refusal::Lane)
        }
    }
}

// The motor's number, 1 to 4.
impl From<Motor> for u8 {
    ghost from_gives = { λ motor number. number ≡ motor_number motor };

    fn from(motor: Motor) -> u8 {
        motor.0 as u8
    }
}

// The motor of a byte that was tested; of any other byte, motor 4.
#[tactic(auto, unfolding(crate::specs::Motor::motor_of))]
pub(crate) fn motor_of(byte: u8) -> Motor
    ensures { result ≡ motor_of byte }
{
    match byte {
        1 => Motor(MotorNumber::One),
        2 => Motor(MotorNumber::Two),
        3 => Motor(MotorNumber::Three),
        _ => Motor(MotorNumber::Four),
    }
}
