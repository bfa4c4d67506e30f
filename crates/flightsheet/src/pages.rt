// The sheet so far: its full pages are written, and the samples of the next are held.
ghost use Rattle.std.specs.Prelude.{◌<◌};

use crate::craft::Craft;
use crate::held_page::HeldPage;
use crate::output::NotWritten;
use lent_samples::SAMPLE_LEN;
use sheet::{PAGE_LEN, write_page};
use std::io::Write;

// A page's number is printed modulo this.
const NUMBERS: u64 = 1_000_000;

#[derive(Drop)]
pub(crate) struct Pages {
    pub(crate) craft: Craft,
    held: HeldPage,
    number: u64,
    // No page is written.
    first: bool,
    ghost numbered: { number < 1_000_000 },
}

impl Pages {
    ghost use Rattle.std.specs.Prelude.{List, ℕ, [], ◌∷◌, ◌++◌, Option, OnOk};
    ghost use Rattle.std.specs.Io.KnownBytes.{Appends};
    ghost use Rattle.lent_samples.specs.Samples.{samples_of, samples_in};
    ghost use Rattle.sheet.specs.Page.{page_text};
    ghost use Rattle.sheet.specs.Sheet.{sheet_text};
    ghost use Rattle.flightsheet.specs.Pages.{Filed};
    ghost use Rattle.flightsheet.specs.declared.craft.Craft.{Craft};

    // No sample yet.
    pub(crate) fn new(craft: Craft) -> Self
        ensures { (now : Option (List ℕ)) → Filed craft result [] now now }
    {
        Self {
            craft,
            held: HeldPage::new(),
            number: 1,
            first: true,
        }
    }

    // Takes a delivered sample, and writes the page that it fills.
    pub(crate) fn add<W: Write>(
        &mut self,
        sample: &[u8; SAMPLE_LEN],
        to: &mut W,
    ) -> Result<(), NotWritten>
        ensures { (craft : Craft) (taken : List (List ℕ)) (at_first : Option (List ℕ)) → Filed craft self.old taken at_first (W.contents to.old)
            → OnOk result (Filed craft self.new (taken ++ sample.now ∷ []) at_first (W.contents to.new)) }
    {
        self.held.hold(sample);
        if !self.held.is_full() {
            return Ok(());
        }
        self.write(to)?;
        self.held.clear();
        self.number = (self.number + 1) % NUMBERS;
        self.first = false;
        Ok(())
    }

    // Writes the last page, if it has a sample or is the only one.
    pub(crate) fn finish<W: Write>(&self, to: &mut W) -> Result<(), NotWritten>
        ensures { (craft : Craft) (taken : List (List ℕ)) (at_first : Option (List ℕ)) → Filed craft self.now taken at_first (W.contents to.old)
            → OnOk result (Appends at_first (W.contents to.new) (sheet_text craft.map craft.magnets (samples_of taken))) }
    {
        if self.held.is_empty() && !self.first {
            return Ok(());
        }
        self.write(to)?;
        Ok(())
    }

    // Writes the page of the samples that are held.
    fn write<W: Write>(&self, to: &mut W) -> Result<(), NotWritten>
        ensures { OnOk result (Appends (W.contents to.old) (W.contents to.new)
            (page_text self.now.number self.now.craft.map self.now.craft.magnets (samples_in self.now.held))) }
    {
        let mut text = [0u8; PAGE_LEN];
        let craft = self.craft;
        write_page(
            self.number,
            self.held.as_slice(),
            craft.map,
            craft.magnets,
            &mut text,
        )?;
        to.write_all(&text)?;
        Ok(())
    }
}
