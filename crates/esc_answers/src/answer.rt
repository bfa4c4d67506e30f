// The answers of an opened unit, one variant for each shape that document 01 gives them.
use esc_feedback::{EscManagerStats, EscManagerTimeout};
use esc_idle::EscIdleQualificationStatus;
use esc_lanes::{EscActuatorRequest, EscTelemetryUpdate};

// A delivered sample, and what the idle check says to it, if there is one.
#[derive(Clone, Copy)]
pub struct Delivered {
    pub update: EscTelemetryUpdate,
    pub status: Option<EscIdleQualificationStatus>,
}

#[derive(Clone, Copy)]
pub enum AckAnswer {
    Rejected,
    Accepted,
    Sample(Delivered),
}

#[derive(Clone, Copy)]
pub struct UnitReport {
    pub faulted: bool,
    pub retrying: bool,
    pub stats: EscManagerStats,
}

// A lane's figures: samples delivered, the largest temperature and the lowest voltage.
#[derive(Clone, Copy, Default)]
pub struct Figure {
    pub samples: u32,
    pub hottest_c: u8,
    pub lowest_cv: u16,
}

#[derive(Clone, Copy)]
pub enum Answer {
    // 00, 06, 09, 0a
    Done,
    // 01
    Request(Option<EscActuatorRequest>),
    // 02, 07
    Decided(bool),
    // 03
    Ack(AckAnswer),
    // 04
    Timeout(Option<EscManagerTimeout>),
    // 05
    Wire(Option<Delivered>),
    // 08
    BackAfterRetries(Option<u32>),
    // 0b
    Idle(Option<EscIdleQualificationStatus>),
    // 0c
    Report(UnitReport),
    // 0d
    Stored(Option<EscTelemetryUpdate>),
    // 0e
    Figures(Figure),
}
