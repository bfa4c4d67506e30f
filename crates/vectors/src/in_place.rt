// The parser's two calls that change it in place, on a parser of this crate's own.
ghost use Rattle.std.specs.Prelude.{◌≡◌};
ghost use Rattle.blheli_telemetry.specs.Parser.{push_of, reset_of};

use blheli_telemetry::{Pushed, StreamParser};

// Pushes one byte.
pub fn push(mut parser: StreamParser, byte: u8) -> Pushed
    ensures { result ≡ push_of parser byte }
{
    let parsed = parser.push(byte);
    Pushed { parser, parsed }
}

// As `StreamParser::reset`, on a parser in a local.
pub fn reset(mut parser: StreamParser) -> StreamParser
    ensures { result ≡ reset_of parser }
{
    parser.reset();
    parser
}
