// A reader borrows the bytes of a record and goes over them, front to back: with each field it moves on.
ghost use Rattle.std.specs.Prelude.{◌≡◌, ◌+◌, ◌≤◌, length, take, drop, slice_index};
ghost use Rattle.base.specs.BigEndian.{number_at};
ghost use Rattle.base.specs.Reply.{replied};
ghost use Rattle.esc_lanes.specs.Output.{read_lane};
ghost use Rattle.esc_records.specs.Reader.{begun, moved, read_flag, read_request};

use base::Refusal;
use esc_lanes::{EscActuatorRequest, EscOutput};

#[derive(Drop)]
pub struct Reader<'a> {
    bytes: &'a [u8],
    at: usize,
}

impl<'a> Reader<'a> {
    // In front of the first byte.
    pub(crate) fn new(bytes: &'a [u8]) -> Reader<'a>
        ensures { result ≡ begun bytes.entry }
    {
        Reader { bytes, at: 0 }
    }

    // The next number, highest byte first. So are those of the other widths.
    #[tactic(auto, unfolding(base::specs::BigEndian::number_at))]
    pub(crate) fn u8(&mut self) -> u8
        requires { self.old.at + 1 ≤ length self.old.bytes.now }
        ensures byte { result ≡ slice_index self.old.bytes.now self.old.at }
        ensures number { result ≡ number_at 1 self.old.bytes.now self.old.at }
        ensures reader_after { self.new ≡ moved self.old 1 }
    {
        u8::from_be_bytes(self.next())
    }

    #[tactic(auto, unfolding(base::specs::BigEndian::number_at))]
    pub(crate) fn u16(&mut self) -> u16
        requires { self.old.at + 2 ≤ length self.old.bytes.now }
        ensures number { result ≡ number_at 2 self.old.bytes.now self.old.at }
        ensures reader_after { self.new ≡ moved self.old 2 }
    {
        u16::from_be_bytes(self.next())
    }

    #[tactic(auto, unfolding(base::specs::BigEndian::number_at))]
    pub(crate) fn u32(&mut self) -> u32
        requires { self.old.at + 4 ≤ length self.old.bytes.now }
        ensures number { result ≡ number_at 4 self.old.bytes.now self.old.at }
        ensures reader_after { self.new ≡ moved self.old 4 }
    {
        u32::from_be_bytes(self.next())
    }

    #[tactic(auto, unfolding(base::specs::BigEndian::number_at))]
    pub(crate) fn u64(&mut self) -> u64
        requires { self.old.at + 8 ≤ length self.old.bytes.now }
        ensures number { result ≡ number_at 8 self.old.bytes.now self.old.at }
        ensures reader_after { self.new ≡ moved self.old 8 }
    {
        u64::from_be_bytes(self.next())
    }

    // A byte that is 0 for no or 1 for yes.
    pub(crate) fn flag(&mut self) -> Result<bool, Refusal>
        requires { self.old.at + 1 ≤ length self.old.bytes.now }
        ensures read { replied result ≡ read_flag (slice_index self.old.bytes.now self.old.at) }
        ensures reader_after { self.new ≡ moved self.old 1 }
    {
        match self.u8() {
            0 => Ok(false),
            1 => Ok(true),
            _ => Err(Refusal::Flag),
        }
    }

    // A lane.
    pub(crate) fn output(&mut self) -> Result<EscOutput, Refusal>
        requires { self.old.at + 1 ≤ length self.old.bytes.now }
        ensures read { replied result ≡ read_lane (slice_index self.old.bytes.now self.old.at) }
        ensures reader_after { self.new ≡ moved self.old 1 }
    {
        EscOutput::try_from(self.u8())
    }

    // A sequence and a lane.
    #[tactic(auto, unfolding(esc_lanes::specs::Output::read_lane))]
    pub(crate) fn request(&mut self) -> Result<EscActuatorRequest, Refusal>
        requires { self.old.at + 5 ≤ length self.old.bytes.now }
        ensures read { replied result ≡ read_request self.old.bytes.now self.old.at }
        ensures reader_after { self.new ≡ moved self.old 5 }
    {
        let sequence = self.u32();
        let output = self.output()?;
        Ok(EscActuatorRequest { sequence, output })
    }

    // The next N bytes.
    fn next<const N: usize>(&mut self) -> [u8; N]
        requires { self.old.at + N ≤ length self.old.bytes.now }
        ensures taken { result ≡ take N (drop self.old.at self.old.bytes.now) }
        ensures reader_after { self.new ≡ moved self.old N }
    {
        let next = *self.bytes[self.at..].first_chunk().unwrap();
        self.at += N;
        next
    }
}
