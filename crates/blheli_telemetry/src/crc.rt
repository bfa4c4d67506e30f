// CRC-8 with polynomial 07, start 0, highest bit first, a byte at a time.
ghost use Rattle.std.specs.Prelude.{◌≡◌};
ghost use Rattle.blheli_telemetry.specs.Crc.{crc_bits, crc_byte, crc_of, CrcTabled};

use crate::crc_table::CRC_TABLE;

// The check byte of bytes.
#[tactic(auto, unfolding(crate::specs::Crc::crc_of, crate::specs::Crc::crc_from))]
pub fn crc8(bytes: &[u8]) -> u8
    ensures { result ≡ crc_of bytes.now }
{
    bytes.iter().fold(0, |crc, &byte| next(crc, byte))
}

// The register after one byte more.
#[tactic(auto, using(crate::proofs::CrcTable::tabled), unfolding(crate::specs::Crc::crc_byte, crate::specs::Crc::crc_bits, crate::specs::Crc::crc_bit))]
fn next(crc: u8, byte: u8) -> u8
    ensures { result ≡ crc_byte crc byte }
{
    entry(&CRC_TABLE, crc ^ byte)
}

// What the table has for a byte.
fn entry(table: &[u8; 256], byte: u8) -> u8
    requires { CrcTabled table.now }
    ensures { result ≡ crc_bits byte }
{
    table[usize::from(byte)]
}
