// Bytes handed over in a lent output: all of them, or none where they do not fit.
ghost use Rattle.std.specs.Prelude.{◌≡◌, length, take};
ghost use Rattle.base.specs.Handed.{handed_reply, handed_output, copied};
ghost use Rattle.base.specs.Reply.{replied};

use crate::refusal::Refusal;

// Hands over a text, and says how long it is.
#[tactic(auto, unfolding(crate::specs::Handed::handed_reply, crate::specs::Handed::handed_output, crate::specs::BigEndian::overwrite))]
pub fn hand(text: &[u8], out: &mut [u8]) -> Result<usize, Refusal>
    ensures result_value { replied result ≡ handed_reply text.now (length out.old) }
    ensures out_after { out.new ≡ handed_output text.now out.old }
{
    let n = text.len();
    if out.len() < n {
        return Err(Refusal::Space);
    }
    out[..n].copy_from_slice(text);
    Ok(n)
}

// Copies the first `n` bytes of a text from the place `at` on; where they do not fit, the output stays as it is.
#[tactic(auto, unfolding(crate::specs::Handed::copied, crate::specs::BigEndian::overwrite))]
pub fn copy(text: &[u8], n: usize, out: &mut [u8], at: usize)
    ensures { out.new ≡ copied at (take n text.now) out.old }
{
    let text = &text[..n.min(text.len())];
    if out.len() < at || out.len() - at < text.len() {
        return;
    }
    out[at..at + text.len()].copy_from_slice(text);
}
