// How fast a motor turns.
ghost use Rattle.std.specs.Prelude.{◌≡◌};
ghost use Rattle.base.specs.Reply.{number_of};
ghost use Rattle.airframe.specs.Speed.{speed_of};
ghost use Rattle.c_calls.specs.Lent.{lent_after};

use crate::answer::store;
use airframe::motor_speed;

// 0, and the motor's turns in a minute, rounded down; or 11.
#[unsafe(no_mangle)]
pub extern "C" fn esc_motor_speed(erpm_div100: u16, magnets: u8, rpm: &mut u32) -> u8
    ensures value { result ≡ number_of (speed_of erpm_div100 magnets) }
    ensures rpm_after { rpm.new ≡ lent_after (speed_of erpm_div100 magnets) rpm.old }
{
    store(motor_speed(erpm_div100, magnets), rpm)
}
