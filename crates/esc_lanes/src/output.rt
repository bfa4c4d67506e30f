// A physical motor output. It is no airframe motor number: the board map alone turns one into the
// other.
ghost use Rattle.std.specs.Prelude.{◌≡◌};
ghost use Rattle.base.specs.Reply.{replied};
ghost use Rattle.esc_lanes.specs.Output.{lane_of, output_at, next_output, read_lane};

use base::Refusal;

// The four lanes, numbered from 0 in this order.
#[derive(Clone, Copy, PartialEq, Eq)]
pub enum Lane {
    Output1,
    Output2,
    Output3,
    Output4,
}

#[derive(Clone, Copy, PartialEq, Eq)]
pub struct EscOutput(pub Lane);

impl EscOutput {
    // The order in which the lanes turn. `index` is the place in it.
    pub const ALL: [EscOutput; 4] = [
        EscOutput(Lane::Output1),
        EscOutput(Lane::Output2),
        EscOutput(Lane::Output3),
        EscOutput(Lane::Output4),
    ];

    // The number of the lane, 0 to 3.
    pub fn index(self) -> usize
        ensures { result ≡ lane_of self }
    {
        self.0 as usize
    }

    // The output that stands at `index` in `ALL`; past the last, the first again.
    pub fn of_index(index: usize) -> EscOutput
        ensures { result ≡ output_at index }
    {
        EscOutput::ALL
            .get(index)
            .copied()
            .unwrap_or(EscOutput::ALL[0])
    }

    // The output whose turn comes after this one's: the next in `ALL`, and after the last the first.
    pub fn next(self) -> EscOutput
        ensures { result ≡ next_output self }
    {
        EscOutput::of_index(self.index() + 1)
    }
}

// The number of the lane.
impl From<EscOutput> for u8 {
    ghost from_gives = { λ output lane. lane ≡ lane_of output };

    fn from(output: EscOutput) -> u8 {
        output.0 as u8
    }
}

// The lane of a number, or 6 above 3.
impl TryFrom<u8> for EscOutput {
    type Error = Refusal;

    ghost try_from_gives = { λ lane read. replied read ≡ read_lane lane };

    #[tactic(auto, unfolding(crate::specs::Output::read_lane))]
    fn try_from(lane: u8) -> Result<EscOutput, Refusal> {
        if lane > 3 {
            return Err(Refusal::Lane);
        }
        Ok(EscOutput::of_index(usize::from(lane)))
    }
}
