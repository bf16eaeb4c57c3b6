//! What becomes of a session's work in an event: what is frozen thaws, the event sets what it sets, and then comes the flush.

ghost use Rattle.std.specs.Prelude.{◌≡◌};
ghost use Rattle.app_tree.specs.View.{shape_of};
ghost use Rattle.session_model.specs.Alone.{flush_with_pairs};
ghost use Rattle.flush_cycle.specs.Flushing.{flush_task_end};
ghost use Rattle.flush_cycle.specs.Jobs.{IsOfRunning};
ghost use Rattle.flush_cycle.specs.inner.Acting.{MayAsk};
ghost use Rattle.flush_cycle.specs.Working.{IsAtRest};
ghost use Rattle.flush_cycle.specs.inner.Passing.{PassesAnew};

use crate::flushing::End;
use crate::work::{Work, nothing_made};
use rx_value::Memory;
use shiny_json::ClientData;
use std::alloc::Global;
use std::sync::ledger::Ledger;
use task_jobs::Done;
use term_eval::{Asker, Steps};

impl Work {
    /// Applies a client message.
    pub fn apply_message<A: Asker, L: Ledger>(
        &mut self,
        alloc: Global,
        pairs: &ClientData,
        asker: &mut A,
        steps: &mut Steps<L>,
    ) -> Result<End, Memory>
        requires ask { MayAsk (shape_of self.old.app) (A.app asker.old) (A.out asker.old) }
        requires rests { IsAtRest self.old }
        ensures { PassesAnew A.follows A.out (flush_with_pairs (shape_of self.old.app) pairs.now)
            self.old self.new asker.old asker.new steps.old steps.new result }
    {
        self.made = nothing_made(alloc);
        self.thaw(alloc)?;
        self.apply_pairs(alloc, pairs.as_slice())?;
        self.flush(alloc, asker, steps)
    }

    /// Applies the end of the running invocation of a task.
    pub fn apply_task_end<A: Asker, L: Ledger>(
        &mut self,
        alloc: Global,
        done: &Done,
        asker: &mut A,
        steps: &mut Steps<L>,
    ) -> Result<End, Memory>
        requires ask { MayAsk (shape_of self.old.app) (A.app asker.old) (A.out asker.old) }
        requires running { IsOfRunning (shape_of self.old.app) self.old.kept.boards done.now }
        requires rests { IsAtRest self.old }
        ensures { PassesAnew A.follows A.out (flush_task_end (shape_of self.old.app) done.now.task)
            self.old self.new asker.old asker.new steps.old steps.new result }
    {
        self.made = nothing_made(alloc);
        self.thaw(alloc)?;
        self.end_task(alloc, done)?;
        self.flush(alloc, asker, steps)
    }
}
