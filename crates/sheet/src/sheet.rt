// The sheet of a list of samples: its pages, one behind the other.
ghost use Rattle.std.specs.Prelude.{◌≡◌, ◌*◌, ◌≤◌, IfOk, drop, length};
ghost use Rattle.base.specs.BigEndian.{overwrite};
ghost use Rattle.base.specs.Reply.{replied, converted};
ghost use Rattle.lent_samples.specs.Samples.{samples_of, samples_in};
ghost use Rattle.sheet.specs.Page.{page_samples, page_length, page_text};
ghost use Rattle.sheet.specs.Sheet.{pages_for, pages_text, sheet_text, with_magnets, sheet_reply, sheet_output, page_reply, page_output};

use crate::page::{PAGE_LEN, PAGE_SAMPLES, put_page};
use airframe::{BoardMap, Magnets};
use base::Refusal;
use lent_samples::{SAMPLE_LEN, count_samples};

// How many characters the sheet of samples takes; or 5, 6, 9 or 11. The map is not asked, so that who reads it
// afterwards gives the lowest number that fits.
pub fn sheet_len(samples: &[u8], magnets: u8, room: usize) -> Result<usize, Refusal>
    ensures { replied result ≡ sheet_reply samples.now magnets room }
{
    let (len, _) = sheet_fits(samples, magnets, room)?;
    Ok(len)
}

// Writes the sheet of samples, and says how many characters it has; or 5, 6, 9 or 11.
pub fn write_sheet(
    samples: &[u8],
    map: BoardMap,
    magnets: u8,
    out: &mut [u8],
) -> Result<usize, Refusal>
    ensures value { replied result ≡ sheet_reply samples.now magnets (length out.old) }
    ensures out_after { out.new ≡ sheet_output samples.now map magnets out.old }
    ensures long { IfOk result (λ n. length (sheet_text map magnets (samples_in samples.now)) ≡ n) }
{
    let (len, magnets) = sheet_fits(samples, magnets, out.len())?;
    let (samples, _) = samples.as_chunks::<SAMPLE_LEN>();
    put_pages(samples, len / PAGE_LEN, map, magnets, out);
    Ok(len)
}

// Writes the page of at most 40 samples that has this number; or 5, 6, 9 or 11.
pub fn write_page(
    number: u64,
    samples: &[u8],
    map: BoardMap,
    magnets: u8,
    out: &mut [u8],
) -> Result<usize, Refusal>
    ensures value { replied result ≡ page_reply samples.now magnets (length out.old) }
    ensures out_after { out.new ≡ page_output number samples.now map magnets out.old }
    ensures long { IfOk result (λ n. length (page_text number map magnets (samples_in samples.now)) ≡ n) }
{
    if PAGE_SAMPLES * SAMPLE_LEN < samples.len() {
        return Err(Refusal::Length);
    }
    let (len, magnets) = sheet_fits(samples, magnets, out.len())?;
    let (samples, _) = samples.as_chunks::<SAMPLE_LEN>();
    put_page(number, samples, map, magnets, out, 0);
    Ok(len)
}

// How many characters the sheet takes, and the magnets that were read.
#[tactic(auto, unfolding(crate::specs::Sheet::sheet_reply))]
fn sheet_fits(samples: &[u8], magnets: u8, room: usize) -> Result<(usize, Magnets), Refusal>
    ensures { replied result ≡ converted (with_magnets magnets) (sheet_reply samples.now magnets room) }
{
    let pages = pages_for(count_samples(samples)?);
    if room / PAGE_LEN < pages {
        return Err(Refusal::Space);
    }
    let magnets = Magnets::try_from(magnets)?;
    Ok((pages * PAGE_LEN, magnets))
}

// How many pages so many samples take.
#[tactic(auto, unfolding(crate::specs::Sheet::pages_for))]
fn pages_for(count: usize) -> usize
    ensures { result ≡ pages_for count }
{
    count.div_ceil(PAGE_SAMPLES).max(1)
}

fn put_pages(
    samples: &[[u8; SAMPLE_LEN]],
    pages: usize,
    map: BoardMap,
    magnets: Magnets,
    out: &mut [u8],
)
    requires { pages * page_length ≤ length out.old }
    ensures out_after { out.new ≡ overwrite 0 (pages_text map magnets (samples_of samples.now) pages) out.old }
    ensures long { length (pages_text map magnets (samples_of samples.now) pages) ≡ pages * page_length }
{
    let mut rest = samples;
    for page in 0..pages {
        put_page(page as u64 + 1, rest, map, magnets, out, page * PAGE_LEN);
        rest = behind_page(rest);
    }
}

// The samples of the pages behind the first.
#[tactic(auto, using(std::proofs::lemmas::List::drop_min))]
fn behind_page(samples: &[[u8; SAMPLE_LEN]]) -> &[[u8; SAMPLE_LEN]]
    ensures { result.now ≡ drop page_samples samples.now }
{
    let first = PAGE_SAMPLES.min(samples.len());
    samples.split_at(first).1
}
