// The lanes in their fixed order: each one's index, and the index of the lane after it. What is expected is
// esc_manager.rs's `ALL` and `index`, and document 01's turn.
use esc_lanes::EscOutput;

// The lanes in the order of `EscOutput::ALL`.
pub fn run(rt: &impl Print) {
    for output in EscOutput::ALL {
        let _ = println!(rt; "lane {} {}", output.index(), output.next().index());
    }
}
