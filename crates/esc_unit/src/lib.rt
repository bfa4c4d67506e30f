// The ESC telemetry unit: records in, answers out.
#![tactic(auto)]

mod unit;

pub use unit::{Called, Unit};
