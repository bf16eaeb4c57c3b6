//! The runs of a flush.

ghost use Rattle.std.specs.Prelude.{◌≡◌, Some, true};
ghost use Rattle.app_tree.specs.View.{node_of, shape_of};
ghost use Rattle.app_tree.specs.Numbering.{reader};
ghost use Rattle.app_tree.specs.ObserverTerms.{terms};
ghost use Rattle.session_model.specs.Flush.{make_run};
ghost use Rattle.flush_cycle.specs.inner.Observing.{IsOutputNamed};
ghost use Rattle.flush_cycle.specs.inner.Acting.{MayAsk, IsNext, Runs};

use crate::work::Work;
use app_tree::Item;
use rx_value::{Memory, RxText};
use shiny_json::BatchOutput;
use std::alloc::Global;
use std::sync::ledger::Ledger;
use term_eval::{Asker, Steps};

impl Work {
    /// Runs an output of this name. It never ends a session.
    fn run_output<A: Asker, L: Ledger>(
        &mut self,
        alloc: Global,
        n: u32,
        name: &RxText,
        plot: bool,
        asker: &mut A,
        steps: &mut Steps<L>,
    ) -> Result<Option<RxText>, Memory>
        requires ask { MayAsk (shape_of self.old.app) (A.app asker.old) (A.out asker.old) }
        requires next { IsNext n self.old }
        requires output { IsOutputNamed name.now plot (reader (shape_of self.old.app) n) }
        ensures { Runs A.follows A.out 1 (make_run (shape_of self.old.app) n)
            self.old self.new asker.old asker.new steps.old steps.new result }
    {
        let outcome = self.session.run_reader(alloc, n, asker, steps)?;
        self.outputs[n as usize].last = Some(outcome.copy(alloc)?);
        let name = name.copy(alloc)?;
        self.made.batch.outputs.push(BatchOutput {
            name,
            plot,
            outcome,
        })?;
        self.made.runs.push(n)?;
        Ok(None)
    }

    /// Runs the reader that is next, and tells the text with which an observer failed, if it did.
    pub fn make_run<A: Asker, L: Ledger>(
        &mut self,
        alloc: Global,
        n: u32,
        asker: &mut A,
        steps: &mut Steps<L>,
    ) -> Result<Option<RxText>, Memory>
        requires ask { MayAsk (shape_of self.old.app) (A.app asker.old) (A.out asker.old) }
        requires next { IsNext n self.old }
        ensures { Runs A.follows A.out (terms (shape_of self.old.app)) (make_run (shape_of self.old.app) n)
            self.old self.new asker.old asker.new steps.old steps.new result }
    {
        let app = self.app.clone()?;
        match app.reader(n) {
            Item::Text { name, .. } => self.run_output(alloc, n, name, false, asker, steps),
            Item::Plot { name, .. } => self.run_output(alloc, n, name, true, asker, steps),
            item => self.run_observer(alloc, n, item, asker, steps),
        }
    }
}
