// The rows of a page, each of 53 characters and an LF.
ghost use Rattle.std.specs.Prelude.{◌≡◌, length};
ghost use Rattle.sheet.specs.Row.{head_text, row_text, blank_row};

use crate::field::{BLANK, right, volts};
use crate::row_text::RowText;
use airframe::{BoardMap, Magnets};
use esc_lanes::EscTelemetryUpdate;

// Row one: the page's number, of which six digits are shown.
#[tactic(auto, unfolding(crate::specs::Row::head_text))]
pub(crate) fn head(number: u64) -> RowText
    ensures text { result ≡ head_text number }
    ensures long { length result ≡ 54 }
{
    let mut row = RowText::new();
    row.put(b"PAGE");
    row.put(&right::<6>(number % 1_000_000));
    row.put(&[BLANK; 43]);
    row.put(b"\n");
    row
}

// The row of a sample. Its motor is the one that the board map has on its lane.
#[tactic(auto, unfolding(crate::specs::Row::row_text))]
pub(crate) fn sample_row(map: BoardMap, magnets: Magnets, update: EscTelemetryUpdate) -> RowText
    ensures text { result ≡ row_text map magnets update }
    ensures long { length result ≡ 54 }
{
    let observation = update.observation;
    let sample = observation.sample;
    let motor = u8::from(map.motor(update.output));
    let speed = magnets.speed(sample.erpm_div100);
    let mut row = RowText::new();
    row.put(&right::<10>(u64::from(observation.request_sequence)));
    row.put(b" ");
    row.put(&right::<1>(u64::from(motor)));
    row.put(b" ");
    row.put(&right::<20>(observation.observed_at_ms));
    row.put(b" ");
    row.put(&right::<7>(u64::from(speed)));
    row.put(b" ");
    row.put(&volts(sample.voltage_cv));
    row.put(b" ");
    row.put(&right::<4>(u64::from(sample.temperature_c)));
    row.put(b"\n");
    row
}

// A row with nothing on it.
#[tactic(auto, unfolding(crate::specs::Row::blank_row))]
pub(crate) fn blank() -> RowText
    ensures text { result ≡ blank_row }
    ensures long { length result ≡ 54 }
{
    let mut row = RowText::new();
    row.put(&[BLANK; 53]);
    row.put(b"\n");
    row
}
