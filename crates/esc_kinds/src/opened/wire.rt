// 05, 06 and 09: the wire's bytes, its cuts, its counts.
ghost use Rattle.std.specs.Prelude.{◌≡◌};
ghost use Rattle.esc_kinds.specs.Step.{step_of};

use crate::opened::{Opened, Stepped};
use esc_answers::{Answer, Delivered};
use esc_records::Record;

impl Opened {
    // 05: a delivered sample goes on to the books.
    #[tactic(auto, unfolding(crate::specs::Step::step_of))]
    pub(crate) fn push_wire_byte(self, byte: u8, observed_at_ms: u64) -> Stepped
        ensures { result ≡ step_of self.manager self.books (Record.WireByte byte observed_at_ms) }
    {
        let received = self.manager.push_wire_byte(byte, observed_at_ms);
        let mut opened = self;
        opened.manager = received.manager;
        let Some(update) = received.answer else {
            return opened.answered(Answer::Wire(None));
        };
        let booked = self.books.booked(update, observed_at_ms);
        opened.books = booked.books;
        let status = booked.status;
        opened.answered(Answer::Wire(Some(Delivered { update, status })))
    }

    // 06: the wire was cut.
    #[tactic(auto, unfolding(crate::specs::Step::step_of))]
    pub(crate) fn record_wire_discontinuity(self) -> Stepped
        ensures { result ≡ step_of self.manager self.books Record.WireDiscontinuity }
    {
        let opened = Opened {
            manager: self.manager.record_wire_discontinuity(),
            ..self
        };
        opened.answered(Answer::Done)
    }

    // 09: the report's copy of the parser's counts is renewed.
    #[tactic(auto, unfolding(crate::specs::Step::step_of))]
    pub(crate) fn refresh_wire_stats(self) -> Stepped
        ensures { result ≡ step_of self.manager self.books Record.RefreshWireStats }
    {
        let opened = Opened {
            manager: self.manager.refresh_wire_stats(),
            ..self
        };
        opened.answered(Answer::Done)
    }
}
