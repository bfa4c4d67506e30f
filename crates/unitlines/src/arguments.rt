// The program's arguments, each by its place.
ghost use Rattle.std.specs.Prelude.{◌≡◌, ◌≤◌, length, take};
ghost use Rattle.unitlines.specs.Held.{held_of};

use std::env::FillError;
use std::rt::Env;

// One more than any path has, so that an argument that is cut names no file and is no known option.
const HELD: usize = 4096;

// An argument as it was given: bytes, which need not be UTF-8. One holds all arguments, one after the other.
#[derive(Drop)]
pub(crate) struct Text {
    bytes: [u8; HELD],
    len: usize,
    ghost within: { len ≤ length bytes },
}

impl Text {
    // No argument yet.
    pub(crate) fn new() -> Self {
        Text {
            bytes: [0; HELD],
            len: 0,
        }
    }

    // The bytes that are held, to the last.
    pub(crate) fn as_slice(&self) -> &[u8]
        ensures { result.now ≡ take self.now.len self.now.bytes }
    {
        &self.bytes[..self.len]
    }

    // Holds an argument, or as much of it as there is room for. None behind the last.
    pub(crate) fn argument(&mut self, rt: &impl Env, i: usize) -> Option<&[u8]> {
        self.len = held(rt.arg(i, &mut self.bytes))?;
        Some(self.as_slice())
    }
}

// How much of an argument is held, by what the call told that copied it.
fn held(told: Result<usize, FillError>) -> Option<usize>
    ensures { result ≡ held_of told }
{
    match told {
        Ok(n) => Some(n),
        Err(FillError::TooLong) => Some(HELD),
        Err(FillError::NotPresent) => None,
    }
}
