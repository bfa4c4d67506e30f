// The settings of the idle check.
ghost use Rattle.std.specs.Prelude.{◌≡◌};
ghost use Rattle.esc_idle.specs.IdleConfig.{valid_settings, dshot_settings};

#[derive(Clone, Copy)]
pub struct EscIdleQualificationConfig {
    pub min_erpm_div100: u16,
    pub max_erpm_div100: u16,
    pub spinup_grace_ms: u32,
    pub timeout_ms: u32,
    pub max_sample_age_ms: u32,
    pub required_consecutive_samples: u8,
}

impl EscIdleQualificationConfig {
    // Settings under which no motor could qualify, or any would, are refused by a verdict.
    #[tactic(auto, unfolding(crate::specs::IdleConfig::valid_settings))]
    pub fn is_valid(self) -> bool
        ensures { result ≡ valid_settings self }
    {
        self.min_erpm_div100 > 0
            && self.min_erpm_div100 < self.max_erpm_div100
            && self.spinup_grace_ms < self.timeout_ms
            && self.max_sample_age_ms > 0
            && self.required_consecutive_samples > 0
    }
}

// Target-proven on both FCU3 and Foxeer F405 V2. A board that cannot use this policy must provide a
// separately qualified profile rather than silently changing one field.
pub const DSHOT_PREARM_STOP_HOLD_MS: u32 = 100;

pub const DSHOT_IDLE_THROTTLE_COMMAND: u16 = 65;

pub const DSHOT_IDLE_QUALIFICATION_CONFIG: EscIdleQualificationConfig = EscIdleQualificationConfig {
    min_erpm_div100: 30,
    max_erpm_div100: 100,
    spinup_grace_ms: 250,
    timeout_ms: 1_200,
    max_sample_age_ms: 200,
    required_consecutive_samples: 3,
};

// `DSHOT_PREARM_STOP_HOLD_MS` with its value stated, for contracts.
pub fn dshot_prearm_stop_hold_ms() -> u32
    ensures { result ≡ 100 }
{
    DSHOT_PREARM_STOP_HOLD_MS
}

// `DSHOT_IDLE_THROTTLE_COMMAND`, likewise.
pub fn dshot_idle_throttle_command() -> u16
    ensures { result ≡ 65 }
{
    DSHOT_IDLE_THROTTLE_COMMAND
}

// `DSHOT_IDLE_QUALIFICATION_CONFIG`, likewise. These settings are valid (`dshot-valid`).
pub fn dshot_idle_qualification_config() -> EscIdleQualificationConfig
    ensures { result ≡ dshot_settings }
{
    DSHOT_IDLE_QUALIFICATION_CONFIG
}
