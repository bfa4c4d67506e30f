// The records, and how their bytes are read: front to back, the refusals in the order of their numbers.
ghost use Rattle.std.specs.Prelude.{◌≡◌};
ghost use Rattle.base.specs.Reply.{replied};
ghost use Rattle.esc_records.specs.Record.{read_record};
ghost use Rattle.esc_records.specs.Whole.{Whole, read_width};

use crate::reader::Reader;
use base::Refusal;
use esc_feedback::EscManagerConfig;
use esc_idle::EscIdleQualificationConfig;
use esc_lanes::{EscActuatorAck, EscActuatorRequest, EscOutput};

#[derive(Clone, Copy)]
pub enum Record {
    // 00
    Open {
        config: EscManagerConfig,
        boot_started_ms: u64,
    },
    // 01
    NextRequest {
        now_ms: u64,
    },
    // 02
    MarkRequestQueued {
        request: EscActuatorRequest,
        now_ms: u64,
    },
    // 03
    ActuatorAck {
        ack: EscActuatorAck,
        now_ms: u64,
    },
    // 04
    PollTimeout {
        now_ms: u64,
    },
    // 05
    WireByte {
        byte: u8,
        observed_at_ms: u64,
    },
    // 06
    WireDiscontinuity,
    // 07
    TryRecover {
        armed: bool,
        now_ms: u64,
    },
    // 08
    TakeBackAfterRetries,
    // 09
    RefreshWireStats,
    // 0a
    IdleCheck {
        config: EscIdleQualificationConfig,
        started_at_ms: u64,
    },
    // 0b
    IdleStatus {
        now_ms: u64,
    },
    // 0c
    Report,
    // 0d
    StoredSample {
        output: EscOutput,
    },
    // 0e
    Figures {
        output: EscOutput,
    },
}

// How many bytes a record of each kind has, its kind among them.
static RECORD_LENS: [usize; 15] = [29, 9, 14, 22, 9, 10, 1, 10, 1, 1, 26, 9, 1, 2, 2];

// The record that the bytes are, or why they are none: the first that fits of kind, length, lane and flag.
#[tactic(auto, using(crate::proofs::RecordLaws::read_tests))]
pub fn read_record(bytes: &[u8]) -> Result<Record, Refusal>
    ensures { replied result ≡ read_record bytes.now }
{
    let kind = *bytes.first().ok_or(Refusal::Kind)?;
    if bytes.len() != record_len(kind)? {
        return Err(Refusal::Length);
    }
    whole_record(bytes)
}

fn record_len(kind: u8) -> Result<usize, Refusal>
    ensures { replied result ≡ read_width kind }
{
    RECORD_LENS
        .get(usize::from(kind))
        .copied()
        .ok_or(Refusal::Kind)
}

// The record of a known kind whose length is right. It is long, since it is the one table of all kinds.
#[tactic(auto, using(crate::proofs::RecordLaws::whole_read), unfolding(crate::proofs::RecordLaws::whole_reply, crate::specs::Record::record_of, esc_lanes::specs::Output::read_lane))]
fn whole_record(bytes: &[u8]) -> Result<Record, Refusal>
    requires { Whole bytes.now }
    ensures { replied result ≡ read_record bytes.now }
{
    let mut reader = Reader::new(bytes);
    match reader.u8() {
        0x00 => Ok(Record::Open {
            config: EscManagerConfig {
                boot_delay_ms: reader.u32(),
                request_period_ms: reader.u32(),
                actuator_ack_timeout_ms: reader.u32(),
                telemetry_response_timeout_ms: reader.u32(),
                recovery_quiet_ms: reader.u32(),
            },
            boot_started_ms: reader.u64(),
        }),
        0x01 => Ok(Record::NextRequest {
            now_ms: reader.u64(),
        }),
        0x02 => Ok(Record::MarkRequestQueued {
            request: reader.request()?,
            now_ms: reader.u64(),
        }),
        0x03 => {
            let request = reader.request()?;
            let started_at_ms = reader.u64();
            let now_ms = reader.u64();
            let ack = EscActuatorAck {
                request,
                started_at_ms,
            };
            Ok(Record::ActuatorAck { ack, now_ms })
        }
        0x04 => Ok(Record::PollTimeout {
            now_ms: reader.u64(),
        }),
        0x05 => Ok(Record::WireByte {
            byte: reader.u8(),
            observed_at_ms: reader.u64(),
        }),
        0x06 => Ok(Record::WireDiscontinuity),
        0x07 => Ok(Record::TryRecover {
            armed: reader.flag()?,
            now_ms: reader.u64(),
        }),
        0x08 => Ok(Record::TakeBackAfterRetries),
        0x09 => Ok(Record::RefreshWireStats),
        0x0a => Ok(Record::IdleCheck {
            config: EscIdleQualificationConfig {
                min_erpm_div100: reader.u16(),
                max_erpm_div100: reader.u16(),
                spinup_grace_ms: reader.u32(),
                timeout_ms: reader.u32(),
                max_sample_age_ms: reader.u32(),
                required_consecutive_samples: reader.u8(),
            },
            started_at_ms: reader.u64(),
        }),
        0x0b => Ok(Record::IdleStatus {
            now_ms: reader.u64(),
        }),
        0x0c => Ok(Record::Report),
        0x0d => Ok(Record::StoredSample {
            output: reader.output()?,
        }),
        0x0e => Ok(Record::Figures {
            output: reader.output()?,
        }),
        _ => unreachable!(),
    }
}
