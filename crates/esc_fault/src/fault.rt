// The fault that a timeout leaves, and the silence that ends it.
//
// A frame carries no output identity. Once a request has timed out, a late acknowledgement or frame
// can't be told from one of a later request, so telemetry stops. It resumes only while disarmed, after
// a time with no wire byte and no acknowledgement: by then nothing that the request caused can still
// arrive.
ghost use Rattle.std.specs.Prelude.{◌≡◌, is_some};
ghost use Rattle.esc_fault.specs.Fault.{no_fault, after_hearing, timed_out_at, quiet_window, may_recover, retried};

use crate::backoff::ESC_RETRY_BACKOFF_STEPS;
use base::saturating_inc;

#[derive(Clone, Copy)]
pub struct Fault {
    // While faulted: the fault, or the last byte or acknowledgement seen since.
    pub quiet_since_ms: Option<u64>,
    // Recoveries since the last delivered sample: the ESCs may be unpowered.
    pub retries_without_frame: u32,
}

impl Fault {
    // No fault, and no retry.
    pub fn new() -> Self
        ensures { result ≡ no_fault }
    {
        Self {
            quiet_since_ms: None,
            retries_without_frame: 0,
        }
    }

    // Whether a timeout has stopped telemetry.
    pub fn is_faulted(self) -> bool
        ensures { result ≡ is_some self.quiet_since_ms }
    {
        self.quiet_since_ms.is_some()
    }

    // While faulted, a byte or an acknowledgement at at_ms moves the quiet time later.
    pub fn heard(self, at_ms: u64) -> Fault
        ensures { result ≡ after_hearing self at_ms }
    {
        Fault {
            quiet_since_ms: self.quiet_since_ms.map(|since_ms| since_ms.max(at_ms)),
            ..self
        }
    }

    // A timeout: the quiet time starts at it.
    pub fn timed_out(self, now_ms: u64) -> Fault
        ensures { result ≡ timed_out_at self now_ms }
    {
        Fault {
            quiet_since_ms: Some(now_ms),
            ..self
        }
    }

    // The quiet window that the next recovery needs.
    #[tactic(auto, unfolding(crate::specs::Fault::quiet_window))]
    pub fn recovery_quiet_ms(self, quiet_ms: u32) -> u64
        ensures { result ≡ quiet_window quiet_ms self.retries_without_frame }
    {
        u64::from(quiet_ms) << self.retries_without_frame.min(ESC_RETRY_BACKOFF_STEPS)
    }

    // Whether telemetry may resume. The time since the quiet start saturates, unlike that of elapsed_at_least: an
    // acknowledgement stamped after now_ms must keep the window open, not end it.
    #[tactic(auto, unfolding(crate::specs::Fault::may_recover))]
    pub fn may_recover(self, quiet_ms: u32, now_ms: u64, armed: bool) -> bool
        ensures { result ≡ may_recover self quiet_ms now_ms armed }
    {
        let Some(since_ms) = self.quiet_since_ms else {
            return false;
        };
        !armed && self.recovery_quiet_ms(quiet_ms) <= now_ms.saturating_sub(since_ms)
    }

    // After a recovery.
    pub fn retried(self) -> Fault
        ensures { result ≡ retried self }
    {
        Fault {
            quiet_since_ms: None,
            retries_without_frame: saturating_inc(self.retries_without_frame),
        }
    }
}
