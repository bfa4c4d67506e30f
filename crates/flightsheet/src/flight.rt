// A flight: lines of answers, and the sheet of the samples that they deliver.
use crate::craft::Craft;
use crate::messages::no_answer;
use crate::output::NotWritten;
use crate::pages::Pages;
use answer_lines::{AnswerLine, Told};
use std::io::Write;

const LINE_END: u8 = b'\n';

#[derive(Drop)]
pub(crate) struct Flight {
    pages: Pages,
    reading: AnswerLine,
    // How many lines were ended, and how many of them were no answers.
    lines: u64,
    passed_over: u64,
}

impl Flight {
    ghost use Rattle.std.specs.Prelude.{◌≡◌, List, ℕ, [], ◌∷◌, ◌++◌, Option, OnOk};
    ghost use Rattle.std.specs.Io.KnownBytes.{Appends};
    ghost use Rattle.answer_lines.specs.AnswerLine.{nothing_kept};
    ghost use Rattle.flightsheet.specs.Flight.{Flown, flight_sheet};
    ghost use Rattle.flightsheet.specs.declared.craft.Craft.{Craft};

    // No line yet.
    pub(crate) fn new(craft: Craft) -> Self
        ensures { (now : Option (List ℕ)) → Flown craft result [] now now }
    {
        Self {
            pages: Pages::new(craft),
            reading: AnswerLine::new(),
            lines: 0,
            passed_over: 0,
        }
    }

    // Takes the next characters.
    pub(crate) fn take<W: Write, E: Write>(
        &mut self,
        characters: &[u8],
        to: &mut W,
        errors: &mut E,
    ) -> Result<(), NotWritten>
        ensures { (craft : Craft) (text : List ℕ) (at_first : Option (List ℕ)) → Flown craft self.old text at_first (W.contents to.old)
            → OnOk result (Flown craft self.new (text ++ characters.now) at_first (W.contents to.new)) }
    {
        for &character in characters {
            self.take_one(character, to, errors)?;
        }
        Ok(())
    }

    fn take_one<W: Write, E: Write>(
        &mut self,
        character: u8,
        to: &mut W,
        errors: &mut E,
    ) -> Result<(), NotWritten>
        ensures { (craft : Craft) (text : List ℕ) (at_first : Option (List ℕ)) → Flown craft self.old text at_first (W.contents to.old)
            → OnOk result (Flown craft self.new (text ++ character ∷ []) at_first (W.contents to.new)) }
    {
        if character == LINE_END {
            self.end_line(to, errors)?;
            return Ok(());
        }
        self.reading.take(character);
        Ok(())
    }

    // Ends the last line, if one is begun, and the sheet. Says how many lines were passed over.
    pub(crate) fn finish<W: Write, E: Write>(
        &mut self,
        to: &mut W,
        errors: &mut E,
    ) -> Result<u64, NotWritten>
        ensures { (craft : Craft) (text : List ℕ) (at_first : Option (List ℕ)) → Flown craft self.old text at_first (W.contents to.old)
            → OnOk result (Appends at_first (W.contents to.new) (flight_sheet craft.map craft.magnets text)) }
    {
        if self.reading.is_begun() {
            self.end_line(to, errors)?;
        }
        self.pages.finish(to)?;
        Ok(self.passed_over)
    }

    // Ends a line: its sample is filed. A line that is no answer is named.
    fn end_line<W: Write, E: Write>(&mut self, to: &mut W, errors: &mut E) -> Result<(), NotWritten>
        ensures ended { self.new.reading ≡ nothing_kept }
        ensures flown { (craft : Craft) (text : List ℕ) (at_first : Option (List ℕ)) → Flown craft self.old text at_first (W.contents to.old)
            → OnOk result (Flown craft self.new (text ++ 10 ∷ []) at_first (W.contents to.new)) }
    {
        self.lines = self.lines.saturating_add(1);
        match self.reading.end() {
            Told::Sample(sample) => self.pages.add(&sample, to)?,
            Told::Other => {}
            Told::NoAnswer => {
                self.passed_over = self.passed_over.saturating_add(1);
                no_answer(errors, self.lines);
            }
        }
        Ok(())
    }
}
