ghost use Rattle.std.specs.Prelude.{◌≡◌};
ghost use Rattle.task_jobs.specs.inner.NoAnswers.{no_answers};

use app_tree::Read;
use rx_value::{Memory, Outcome};
use std::alloc::Global;
use term_eval::{Answer, Entered, Reader};

/// What a task's body reads from, which reads nothing: whatever is asked stops, and each isolated site
/// is evaluated.
#[derive(Drop)]
pub struct NoReads;

impl Reader for NoReads {
    ghost answers = { λ s. no_answers };

    ghost noted = { λ a asked b. Unit {0} };

    fn read(&mut self, _alloc: Global, _what: Read) -> Answer {
        Answer::Given(Outcome::Stop)
    }

    fn enter(&mut self, _alloc: Global, _site: usize) -> Entered {
        Entered::Run
    }

    fn exit(&mut self, _alloc: Global, _site: usize, _got: &Outcome) -> Result<(), Memory> {
        Ok(())
    }

    ghost stays = { λ s. tt };

    ghost chains = { λ a b c xs ys p q. tt };
}
