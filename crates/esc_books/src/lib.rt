// The books of the unit: stored samples, at most one idle check, and the figures of each lane.
#![tactic(auto)]

mod books;
mod figures;

pub use books::{Booked, Books};
pub use figures::Figures;
