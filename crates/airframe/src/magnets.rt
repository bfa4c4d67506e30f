// A count of magnets that a motor can have.
ghost use Rattle.std.specs.Prelude.{◌≡◌, ◌≤◌, ℕ};
ghost use Rattle.base.specs.Reply.{replied};
ghost use Rattle.airframe.specs.Speed.{turns, read_magnets};

use base::Refusal;
use std::marker::Model;

// An even count above zero.
#[derive(Clone, Copy)]
pub struct Magnets {
    count: u8,
}

impl Model for Magnets {
    ghost Value = { ℕ };

    ghost view = { λ m. m.count };

    ghost inverse = { λ n. record { count = n } };

    ghost invariant = { λ m. 2 ≤ m.count };
}

// The count of a byte; or 11 where it is zero or odd.
impl TryFrom<u8> for Magnets {
    type Error = Refusal;

    ghost try_from_gives = { λ count read. replied read ≡ read_magnets count };

    #[tactic(auto, unfolding(crate::specs::Speed::read_magnets))]
    fn try_from(count: u8) -> Result<Magnets, Refusal> {
        if count == 0 || count % 2 != 0 {
            return Err(Refusal::Magnets);
        }
        Ok(Magnets { count })
    }
}

impl Magnets {
    // Turns of the motor in a minute, rounded down.
    pub fn speed(self, erpm_div100: u16) -> u32
        ensures { result ≡ turns erpm_div100 self }
    {
        u32::from(erpm_div100) * 200 / u32::from(self.count)
    }
}
