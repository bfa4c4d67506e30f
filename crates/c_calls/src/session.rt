// A whole session: text in, text out.
ghost use Rattle.std.specs.Prelude.{◌≡◌, length};
ghost use Rattle.unit_text.specs.Session.{session_text};
ghost use Rattle.base.specs.Handed.{handed_reply, handed_output};
ghost use Rattle.base.specs.Reply.{number_of};
ghost use Rattle.c_calls.specs.Lent.{lent_after};

use crate::answer::store;
use unit_text::session;

// 0 where the answers were written, and how many characters they have; or 9.
#[unsafe(no_mangle)]
pub extern "C" fn esc_unit_session(text: &[u8], out: &mut [u8], count: &mut usize) -> u8
    ensures value { result ≡ number_of (handed_reply (session_text text.now) (length out.old)) }
    ensures out_after { out.new ≡ handed_output (session_text text.now) out.old }
    ensures count_after { count.new ≡ lent_after (handed_reply (session_text text.now) (length out.old)) count.old }
{
    store(session(text, out), count)
}
