// 07 and 08: recovery, and the note of the retries that it took.
ghost use Rattle.std.specs.Prelude.{◌≡◌};
ghost use Rattle.esc_kinds.specs.Step.{step_of};

use crate::opened::{Opened, Stepped};
use esc_answers::Answer;
use esc_records::Record;

impl Opened {
    // 07: a recovery drops the stored samples.
    #[tactic(auto, unfolding(crate::specs::Step::step_of))]
    pub(crate) fn try_recover(self, armed: bool, now_ms: u64) -> Stepped
        ensures { result ≡ step_of self.manager self.books (Record.TryRecover armed now_ms) }
    {
        let recovered = self.manager.try_recover(now_ms, armed);
        let books = if recovered.answer {
            self.books.samples_dropped()
        } else {
            self.books
        };
        let opened = Opened {
            manager: recovered.manager,
            books,
        };
        opened.answered(Answer::Decided(recovered.answer))
    }

    // 08: hands out how many retries the latest sample ended, once.
    #[tactic(auto, unfolding(crate::specs::Step::step_of))]
    pub(crate) fn take_back_after_retries(self) -> Stepped
        ensures { result ≡ step_of self.manager self.books Record.TakeBackAfterRetries }
    {
        let taken = self.manager.take_back_after_retries();
        let opened = Opened {
            manager: taken.manager,
            ..self
        };
        opened.answered(Answer::BackAfterRetries(taken.answer))
    }
}
