// Samples as they are lent: as an answer has them, one behind the other.
ghost use Rattle.std.specs.Prelude.{◌≡◌, length};
ghost use Rattle.std.specs.List.{list_all};
ghost use Rattle.base.specs.Reply.{replied, converted};
ghost use Rattle.lent_samples.specs.Samples.{names_lane, lent_sample, read_samples};

use base::Refusal;
use blheli_telemetry::EscTelemetry;
use esc_lanes::{EscOutput, EscTelemetryObservation, EscTelemetryUpdate};

// As many bytes as a sample has: its lane, its sequence, its time and the nine of its frame.
pub const SAMPLE_LEN: usize = 22;

// How many samples the bytes are: 5 where they are not whole ones, 6 where one of them names no lane.
#[tactic(auto, unfolding(crate::specs::Samples::read_samples))]
pub fn count_samples(bytes: &[u8]) -> Result<usize, Refusal>
    ensures { replied result ≡ converted length (read_samples bytes.now) }
{
    let (samples, rest) = bytes.as_chunks::<SAMPLE_LEN>();
    if !rest.is_empty() {
        return Err(Refusal::Length);
    }
    if !all_on_lanes(samples) {
        return Err(Refusal::Lane);
    }
    Ok(samples.len())
}

fn all_on_lanes(samples: &[[u8; SAMPLE_LEN]]) -> bool
    ensures { result ≡ list_all names_lane samples.now }
{
    samples.iter().all(|sample| sample[0] <= 3)
}

// The sample of its bytes.
#[tactic(auto, unfolding(crate::specs::Samples::lent_sample, blheli_telemetry::specs::Frame::telemetry_of, base::specs::BigEndian::number_at))]
pub fn read_sample(bytes: &[u8; SAMPLE_LEN]) -> EscTelemetryUpdate
    ensures { result ≡ lent_sample bytes.now }
{
    let &[
        lane,
        s0,
        s1,
        s2,
        s3,
        t0,
        t1,
        t2,
        t3,
        t4,
        t5,
        t6,
        t7,
        temperature_c,
        v0,
        v1,
        a0,
        a1,
        c0,
        c1,
        e0,
        e1,
    ] = bytes;
    EscTelemetryUpdate {
        output: EscOutput::of_index(usize::from(lane)),
        observation: EscTelemetryObservation {
            sample: EscTelemetry {
                temperature_c,
                voltage_cv: u16::from_be_bytes([v0, v1]),
                current_ca: u16::from_be_bytes([a0, a1]),
                consumption_mah: u16::from_be_bytes([c0, c1]),
                erpm_div100: u16::from_be_bytes([e0, e1]),
            },
            observed_at_ms: u64::from_be_bytes([t0, t1, t2, t3, t4, t5, t6, t7]),
            request_sequence: u32::from_be_bytes([s0, s1, s2, s3]),
        },
    }
}
