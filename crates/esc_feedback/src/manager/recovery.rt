// Recovery: telemetry resumes after a timeout.
ghost use Rattle.std.specs.Prelude.{◌≡◌};
ghost use Rattle.esc_feedback.specs.Recovery.{try_recover, recovered_manager};

use crate::answer::After;
use crate::manager::EscManager;

impl EscManager {
    // Yes once the craft is disarmed and the wire and the acknowledgements have been silent for long
    // enough. The caller then drops every stored sample (`EscSamples::new`), so that arming needs
    // fresh eRPM from each motor.
    #[tactic(auto, unfolding(crate::specs::Recovery::try_recover))]
    pub fn try_recover(self, now_ms: u64, armed: bool) -> After<bool>
        ensures { result ≡ try_recover self now_ms armed }
    {
        let answer = self
            .fault
            .may_recover(self.config.recovery_quiet_ms, now_ms, armed);
        let manager = if answer { self.recovered() } else { self };
        After { manager, answer }
    }

    fn recovered(self) -> EscManager
        ensures { result ≡ recovered_manager self }
    {
        let mut manager = self.record_wire_discontinuity();
        manager.pending = None;
        manager.fault = manager.fault.retried();
        manager.stats.recoveries = manager.stats.recoveries.wrapping_add(1);
        manager
    }
}
