// The manager: asks one output after the other for telemetry, one request at a time, and books each
// frame to the request that it answers. It starts no motor and touches no wire: a caller carries
// requests, acknowledgements and bytes to and fro.
//
// Stored samples are kept beside it (`EscSamples`).
mod ack;
mod queueing;
mod recovery;
mod timeout;
mod wire;

ghost use Rattle.std.specs.Prelude.{◌≡◌, not, nat_eq};
ghost use Rattle.esc_feedback.specs.Manager.{is_faulted, new_manager, closed_by_sample, take_back, manager_stats};

use crate::answer::After;
use crate::config::EscManagerConfig;
use crate::pending::PendingRequest;
use crate::stats::EscManagerStats;
use crate::turn::Turn;
use blheli_telemetry::StreamParser;
use esc_fault::Fault;

// Most bytes only move the fault's quiet time and join the parser: these two are public, so that a
// loop over bytes can change them in place.
#[derive(Clone, Copy)]
pub struct EscManager {
    config: EscManagerConfig,
    boot_started_ms: u64,
    turn: Turn,
    pending: Option<PendingRequest>,
    pub fault: Fault,
    // Set when a sample is delivered after retries, until taken for the log.
    back_after_retries: Option<u32>,
    pub parser: StreamParser,
    stats: EscManagerStats,
}

impl EscManager {
    // 00: everything anew.
    pub fn new(config: EscManagerConfig, boot_started_ms: u64) -> Self
        ensures { result ≡ new_manager config boot_started_ms }
    {
        Self {
            config,
            boot_started_ms,
            turn: Turn::new(),
            pending: None,
            fault: Fault::new(),
            back_after_retries: None,
            parser: StreamParser::new(),
            stats: EscManagerStats::new(),
        }
    }

    // Whether a timeout has stopped telemetry.
    pub fn is_faulted(self) -> bool
        ensures { result ≡ is_faulted self }
    {
        self.fault.is_faulted()
    }

    // Whether telemetry is retrying after a timeout and no sample has been delivered since: a further
    // timeout is the same outage, not a new one.
    pub fn is_retrying(self) -> bool
        ensures { result ≡ not (nat_eq self.fault.retries_without_frame 0) }
    {
        self.fault.retries_without_frame != 0
    }

    // The counts that the report shows.
    pub fn stats(self) -> EscManagerStats
        ensures { result ≡ manager_stats self }
    {
        self.stats
    }

    // Once, after a sample was delivered following retries: how many it took.
    pub fn take_back_after_retries(self) -> After<Option<u32>>
        ensures { result ≡ take_back self }
    {
        After {
            manager: Self {
                back_after_retries: None,
                ..self
            },
            answer: self.back_after_retries,
        }
    }

    // After a sample was delivered: nothing is open, and the retries, if any, are over and noted.
    #[tactic(auto, unfolding(crate::specs::Manager::closed_by_sample))]
    fn delivered(self) -> EscManager
        ensures { result ≡ closed_by_sample self }
    {
        let mut manager = self;
        manager.pending = None;
        let retries = self.fault.retries_without_frame;
        if retries != 0 {
            manager.back_after_retries = Some(retries);
            manager.fault.retries_without_frame = 0;
        }
        manager
    }
}
