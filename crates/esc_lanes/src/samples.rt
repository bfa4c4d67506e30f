// The newest sample of each output, kept beside the manager.
//
// The caller stores each update that the manager delivers (an acknowledgement's or a byte's), and starts
// anew on a recovery answered yes.
ghost use Rattle.std.specs.Prelude.{◌≡◌};
ghost use Rattle.esc_lanes.specs.Samples.{no_samples, stored_in, sample_at};

use crate::output::EscOutput;
use crate::request::{EscTelemetryObservation, EscTelemetryUpdate};

#[derive(Clone, Copy)]
pub struct EscSamples {
    lanes: [Option<EscTelemetryObservation>; 4],
}

impl EscSamples {
    // No lane has a sample.
    pub fn new() -> Self
        ensures { result ≡ no_samples }
    {
        Self { lanes: [None; 4] }
    }

    // The samples with a delivered one in its lane's place.
    pub fn stored(self, update: EscTelemetryUpdate) -> EscSamples
        ensures { result ≡ stored_in self update }
    {
        let mut samples = self;
        samples.lanes[update.output.index()] = Some(update.observation);
        samples
    }

    // What a lane delivered last.
    pub fn at(self, output: EscOutput) -> Option<EscTelemetryObservation>
        ensures { result ≡ sample_at self output }
    {
        self.lanes[output.index()]
    }
}
