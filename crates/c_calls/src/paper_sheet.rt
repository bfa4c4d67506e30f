// The paper sheet of samples, as maintenance files it.
ghost use Rattle.std.specs.Prelude.{◌≡◌, length};
ghost use Rattle.base.specs.Reply.{replied, number_of};
ghost use Rattle.c_calls.specs.Lent.{lent_after};
ghost use Rattle.c_calls.specs.Sheet.{map_sheet_reply, map_sheet_output};

use crate::answer::store;
use airframe::BoardMap;
use base::Refusal;
use esc_lanes::EscOutput;
use sheet::{sheet_len, write_sheet};

// 0 where the sheet was written, and how many characters it has; or 5, 6, 9, 11 or 12.
#[unsafe(no_mangle)]
pub extern "C" fn esc_sheet(
    samples: &[u8],
    map: &[u8],
    magnets: u8,
    out: &mut [u8],
    written: &mut usize,
) -> u8
    ensures value { result ≡ number_of (map_sheet_reply samples.now map.now magnets (length out.old)) }
    ensures out_after { out.new ≡ map_sheet_output samples.now map.now magnets out.old }
    ensures written_after { written.new ≡ lent_after (map_sheet_reply samples.now map.now magnets (length out.old)) written.old }
{
    store(sheet_of_map(samples, map, magnets, out), written)
}

// The lowest number that fits: the map's length, 5, before what a sheet is refused by, and its motors, 12, behind that.
fn sheet_of_map(samples: &[u8], map: &[u8], magnets: u8, out: &mut [u8]) -> Result<usize, Refusal>
    ensures value { replied result ≡ map_sheet_reply samples.now map.now magnets (length out.old) }
    ensures out_after { out.new ≡ map_sheet_output samples.now map.now magnets out.old }
{
    if map.len() != EscOutput::ALL.len() {
        return Err(Refusal::Length);
    }
    sheet_len(samples, magnets, out.len())?;
    let map = BoardMap::try_from(map)?;
    write_sheet(samples, map, magnets, out)
}
