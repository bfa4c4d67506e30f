// What a call answers: 0, or the number of the refusal.
ghost use Rattle.std.specs.Prelude.{◌≡◌};
ghost use Rattle.base.specs.Reply.{replied, number_of};
ghost use Rattle.c_calls.specs.Lent.{lent_after};

use base::Refusal;

// Of a call that writes its result itself, or has none.
pub(crate) fn number<T: Copy>(answer: Result<T, Refusal>) -> u8
    ensures { result ≡ number_of (replied answer) }
{
    match answer {
        Ok(_) => 0,
        Err(refusal) => u8::from(refusal),
    }
}

// Of a call that is lent a place for its result: it stays as found where the call is refused.
pub(crate) fn store<T: Copy>(answer: Result<T, Refusal>, to: &mut T) -> u8
    ensures value { result ≡ number_of (replied answer) }
    ensures to_after { to.new ≡ lent_after (replied answer) to.old }
{
    match answer {
        Ok(value) => {
            *to = value;
            0
        }
        Err(refusal) => u8::from(refusal),
    }
}
