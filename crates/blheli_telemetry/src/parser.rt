// A byte-stream parser with fixed storage.
//
// A CRC failure advances by one byte because the protocol has no sync byte. This recovers from
// dropped and noisy bytes while memory and work stay bounded.
ghost use Rattle.std.specs.Prelude.{◌≡◌};
ghost use Rattle.base.specs.Choice.{pick};
ghost use Rattle.blheli_telemetry.specs.Parser.{no_counts, new_parser, counted_good, counted_bad, shifted_down, collected, push_of, reset_of, parser_stats, collecting};

use crate::frame::{EscTelemetry, decode};
use base::saturating_inc;

#[derive(Clone, Copy, Default)]
pub struct ParserStats {
    pub valid_frames: u32,
    pub crc_failures: u32,
    pub discarded_bytes: u32,
}

#[derive(Clone, Copy)]
pub struct StreamParser {
    len: usize,
    stats: ParserStats,
    bytes: [u8; 10],
}

// The parser after a byte, and the sample that the byte ends, if it ends one.
#[derive(Clone, Copy)]
pub struct Pushed {
    pub parser: StreamParser,
    pub parsed: Option<EscTelemetry>,
}

impl ParserStats {
    // Nothing counted.
    pub fn new() -> Self
        ensures { result ≡ no_counts }
    {
        Self::default()
    }
}

impl StreamParser {
    // A parser that holds no byte and has counted nothing.
    pub fn new() -> Self
        ensures { result ≡ new_parser }
    {
        Self {
            bytes: [0; 10],
            len: 0,
            stats: ParserStats::new(),
        }
    }

    // Whether one byte more is only held, since it makes no ten.
    pub fn collects(self) -> bool
        ensures { result ≡ collecting self }
    {
        self.len < 9
    }

    // The parser with one byte more held; as it is where that byte would be the tenth.
    pub fn collected(self, byte: u8) -> StreamParser
        ensures { result ≡ pick (collecting self) (collected self byte).parser self }
    {
        let mut parser = self;
        if parser.collects() {
            parser.bytes[parser.len] = byte;
            parser.len += 1;
        }
        parser
    }

    // The parser with one byte more, and what that byte brings out of it. It is inlined, so that a caller that has the parser in a place
    // changes it there.
    #[inline(always)]
    #[tactic(auto, unfolding(crate::specs::Parser::push_of))]
    pub fn pushed(self, byte: u8) -> Pushed
        ensures { result ≡ push_of self byte }
    {
        if self.collects() {
            return Pushed {
                parser: self.collected(byte),
                parsed: None,
            };
        }
        let mut bytes = self.bytes;
        bytes[9] = byte;
        match decode(&bytes) {
            Ok(sample) => Pushed {
                parser: StreamParser {
                    bytes,
                    len: 0,
                    stats: counted_good(self.stats),
                },
                parsed: Some(sample),
            },
            Err(_) => Pushed {
                parser: StreamParser {
                    bytes: shifted_down(bytes),
                    len: 9,
                    stats: counted_bad(self.stats),
                },
                parsed: None,
            },
        }
    }

    // The parser with no byte held and its counts kept.
    pub fn emptied(self) -> StreamParser
        ensures { result ≡ reset_of self }
    {
        StreamParser { len: 0, ..self }
    }

    // What the parser has counted since it was made.
    pub fn stats(self) -> ParserStats
        ensures { result ≡ parser_stats self }
    {
        self.stats
    }

    // As `pushed`, on the caller's parser in place.
    pub fn push(&mut self, byte: u8) -> Option<EscTelemetry>
        ensures { (result ≡ (push_of self.old byte).parsed) × (self.new ≡ (push_of self.old byte).parser) }
    {
        let done = self.pushed(byte);
        *self = done.parser;
        done.parsed
    }

    // As `emptied`, on the caller's parser in place.
    pub fn reset(&mut self)
        ensures { self.new ≡ reset_of self.old }
    {
        *self = self.emptied();
    }
}

fn counted_good(stats: ParserStats) -> ParserStats
    ensures { result ≡ counted_good stats }
{
    ParserStats {
        valid_frames: saturating_inc(stats.valid_frames),
        ..stats
    }
}

fn counted_bad(stats: ParserStats) -> ParserStats
    ensures { result ≡ counted_bad stats }
{
    ParserStats {
        crc_failures: saturating_inc(stats.crc_failures),
        discarded_bytes: saturating_inc(stats.discarded_bytes),
        ..stats
    }
}

// Each byte but the first, one place down: the oldest is dropped.
#[tactic(auto, unfolding(crate::specs::Parser::shifted_down))]
fn shifted_down(bytes: [u8; 10]) -> [u8; 10]
    ensures { result ≡ shifted_down bytes }
{
    let mut shifted = bytes;
    shifted[..9].copy_from_slice(&bytes[1..]);
    shifted
}
