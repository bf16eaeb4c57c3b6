//! The flush.

ghost use Rattle.std.specs.Prelude.{◌≡◌};
ghost use Rattle.app_tree.specs.View.{shape_of};
ghost use Rattle.session_model.specs.Flush.{flush};
ghost use Rattle.flush_cycle.specs.inner.Acting.{MayAsk};
ghost use Rattle.flush_cycle.specs.Working.{IsAtRest};
ghost use Rattle.flush_cycle.specs.inner.Passing.{Passes};

use crate::work::Work;
use rx_value::{Memory, RxText};
use std::alloc::Global;
use std::sync::ledger::Ledger;
use term_eval::{Asker, Steps};

/// How a flush ended.
#[derive(Debug, Drop)]
pub enum End {
    /// Nobody waits.
    Done,
    /// As many runs as the budget were made, and a reader still waits.
    BudgetSpent,
    /// An observer failed with this text.
    ObserverFailed(RxText),
}

impl Work {
    /// Runs the next reader that waits, until none does, the budget is spent or an observer fails.
    pub fn flush<A: Asker, L: Ledger>(
        &mut self,
        alloc: Global,
        asker: &mut A,
        steps: &mut Steps<L>,
    ) -> Result<End, Memory>
        requires ask { MayAsk (shape_of self.old.app) (A.app asker.old) (A.out asker.old) }
        requires rests { IsAtRest self.old }
        ensures { Passes A.follows A.out (flush (shape_of self.old.app))
            self.old self.new asker.old asker.new steps.old steps.new result }
    {
        for _run in 0..self.app.budget() {
            let Some(n) = self.pending.next() else {
                return Ok(End::Done);
            };
            if let Some(why) = self.make_run(alloc, n, asker, steps)? {
                return Ok(End::ObserverFailed(why));
            }
        }
        match self.pending.next() {
            Some(_) => Ok(End::BudgetSpent),
            None => Ok(End::Done),
        }
    }
}
