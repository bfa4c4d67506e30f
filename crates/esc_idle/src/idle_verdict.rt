// What the idle check answers.
use esc_lanes::EscOutput;

#[derive(Clone, Copy)]
pub enum EscIdleQualificationFailure {
    InvalidConfig,
    Overspeed { output: EscOutput, erpm_div100: u16 },
    // The count of each lane.
    Timeout { consecutive_samples: [u8; 4] },
}

#[derive(Clone, Copy)]
pub enum EscIdleQualificationStatus {
    Pending,
    Qualified,
    Failed(EscIdleQualificationFailure),
}
