// How fast a motor turns, from its electrical speed and the count of its magnets.
ghost use Rattle.std.specs.Prelude.{◌≡◌};
ghost use Rattle.base.specs.Reply.{replied};
ghost use Rattle.airframe.specs.Speed.{speed_of};

use crate::magnets::Magnets;
use base::Refusal;

// Turns of the motor in a minute, rounded down; or 11 where the count of magnets is zero or odd.
#[tactic(auto, unfolding(crate::specs::Speed::speed_of, crate::specs::Speed::read_magnets))]
pub fn motor_speed(erpm_div100: u16, magnets: u8) -> Result<u32, Refusal>
    ensures { replied result ≡ speed_of erpm_div100 magnets }
{
    let magnets = Magnets::try_from(magnets)?;
    Ok(magnets.speed(erpm_div100))
}
