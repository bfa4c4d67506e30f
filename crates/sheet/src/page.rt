// A page: row one, and a row for each of 40 places.
ghost use Rattle.std.specs.Prelude.{◌≡◌, ◌+◌, ◌≤◌, length, slice_get};
ghost use Rattle.base.specs.BigEndian.{overwrite};
ghost use Rattle.lent_samples.specs.Samples.{samples_of};
ghost use Rattle.sheet.specs.Page.{page_length, page_text, place_text};

use crate::row::{blank, head, sample_row};
use crate::row_text::{ROW_LEN, RowText};
use airframe::{BoardMap, Magnets};
use lent_samples::{SAMPLE_LEN, read_sample};

// As many samples as a page has.
pub const PAGE_SAMPLES: usize = 40;

// As many characters as a page has: 41 rows of 53 and an LF.
pub const PAGE_LEN: usize = 2214;

// Writes the page of the first samples from the place `at` on.
pub(crate) fn put_page(
    number: u64,
    samples: &[[u8; SAMPLE_LEN]],
    map: BoardMap,
    magnets: Magnets,
    out: &mut [u8],
    at: usize,
)
    requires { at + page_length ≤ length out.old }
    ensures out_after { out.new ≡ overwrite at (page_text number map magnets (samples_of samples.now)) out.old }
    ensures long { length (page_text number map magnets (samples_of samples.now)) ≡ page_length }
{
    put(head(number).as_slice(), out, at);
    for place in 0..PAGE_SAMPLES {
        let row = place_row(samples, place, map, magnets);
        put(row.as_slice(), out, at + (place + 1) * ROW_LEN);
    }
}

// The row at a place: its sample's, or a blank one.
fn place_row(samples: &[[u8; SAMPLE_LEN]], place: usize, map: BoardMap, magnets: Magnets) -> RowText
    ensures text { result ≡ place_text map magnets (slice_get (samples_of samples.now) place) }
    ensures long { length result ≡ 54 }
{
    match samples.get(place) {
        Some(sample) => sample_row(map, magnets, read_sample(sample)),
        None => blank(),
    }
}

// Writes a text from the place `at` on.
#[tactic(auto, unfolding(base::specs::BigEndian::overwrite))]
fn put(text: &[u8], out: &mut [u8], at: usize)
    requires { at + length text.now ≤ length out.old }
    ensures { out.new ≡ overwrite at text.now out.old }
{
    out[at..at + text.len()].copy_from_slice(text);
}
