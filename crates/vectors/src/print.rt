// How what is computed is written. A write that fails is let go: it shows as a line that the expected output has and this one lacks.
use base::Refusal;
use blheli_telemetry::EscTelemetry;
use std::fmt;

// Bytes, two digits each.
#[derive(Clone, Copy)]
pub struct Hex<'a>(pub &'a [u8]);

// The five fields, in the frame's order.
#[derive(Clone, Copy)]
pub struct Fields(pub EscTelemetry);

// A refusal by its number.
#[derive(Clone, Copy)]
pub struct Refused(pub Refusal);

impl fmt::Display for Hex<'_> {
    fn fmt<W: fmt::Write>(&self, f: &mut fmt::Formatter<W>) -> fmt::Result {
        for byte in self.0 {
            write!(f, "{byte:02x}")?;
        }
        Ok(())
    }
}

impl fmt::Display for Fields {
    fn fmt<W: fmt::Write>(&self, f: &mut fmt::Formatter<W>) -> fmt::Result {
        let t = self.0;
        write!(
            f,
            "{} {} {} {} {}",
            t.temperature_c, t.voltage_cv, t.current_ca, t.consumption_mah, t.erpm_div100
        )
    }
}

impl fmt::Display for Refused {
    fn fmt<W: fmt::Write>(&self, f: &mut fmt::Formatter<W>) -> fmt::Result {
        write!(f, "refused {}", u8::from(self.0))
    }
}
