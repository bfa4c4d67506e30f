// Numbers of 16 bits, high byte first.
ghost use Rattle.std.specs.Prelude.{◌≡◌, ◌+◌, ◌≤◌, length};
ghost use Rattle.base.specs.BigEndian.{number_at};

#[tactic(auto, unfolding(base::specs::BigEndian::number_at))]
pub(crate) fn be16_at(bytes: &[u8], at: usize) -> u16
    requires { at + 2 ≤ length bytes.now }
    ensures { result ≡ number_at 2 bytes.now at }
{
    u16::from_be_bytes([bytes[at], bytes[at + 1]])
}
