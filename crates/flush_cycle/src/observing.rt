//! The runs of observers.

ghost use Rattle.std.specs.Prelude.{◌≡◌, Some, suc, true};
ghost use Rattle.app_tree.specs.View.{acts_of_block, node_of, shape_of, tree_of};
ghost use Rattle.app_tree.specs.Numbering.{reader};
ghost use Rattle.app_tree.specs.ObserverTerms.{observer_terms, terms_in_acts};
ghost use Rattle.session_model.specs.Flush.{is_observer_at, make_run};
ghost use Rattle.session_model.specs.Observing.{observe_node, do_on};
ghost use Rattle.flush_cycle.specs.inner.Statements.{IsTermOf, AreActsOf};
ghost use Rattle.flush_cycle.specs.inner.Observing.{is_left_out, on_behind, IsObserverOf};
ghost use Rattle.flush_cycle.specs.inner.Acting.{MayAsk, MayAct, IsNext, Begins, Finishes, Acts, Runs};

use crate::statements::Observer;
use crate::work::Work;
use app_tree::{Block, Flags, Item, Term};
use rx_value::{Memory, Outcome, RxText, Value};
use std::alloc::Global;
use std::sync::ledger::Ledger;
use term_eval::{Asker, Steps};

/// When the statements behind an event term are left out.
#[derive(Clone, Copy, Debug, PartialEq, Eq)]
pub struct Behind {
    pub flags: Flags,
    /// Whether this is the observer's first run.
    pub first: bool,
}

impl Behind {
    /// At NULL, unless that is allowed, and at any value on the first run, where that is ignored.
    fn leaves_out(self, value: &Value) -> bool
        ensures { result ≡ is_left_out self.flags self.first value.now }
    {
        matches!(value, Value::Null) && !self.flags.allow_null
            || self.first && self.flags.ignore_init
    }
}

impl Work {
    /// Begins the run of an observer.
    fn begin(&mut self, n: u32)
        requires next { IsNext n self.old }
        requires observer { is_observer_at (reader (shape_of self.old.app) n) ≡ true }
        ensures { Begins n self.old self.new }
    {
        self.session.begin(n);
    }

    /// Ends it.
    fn finish(&mut self, n: u32)
        requires { MayAct n self.old }
        ensures { Finishes self.old self.new }
    {
        let _alive = self.session.finish(n);
    }

    /// Does what the statements behind an event term say with its value; what they read doesn't count.
    fn run_behind<A: Asker, L: Ledger>(
        &mut self,
        alloc: Global,
        number: u32,
        behind: Behind,
        value: &Value,
        block: &Block,
        asker: &mut A,
        steps: &mut Steps<L>,
    ) -> Result<Outcome, Memory>
        requires ask { MayAsk (shape_of self.old.app) (A.app asker.old) (A.out asker.old) }
        requires act { MayAct number self.old }
        requires block { AreActsOf (shape_of self.old.app) (acts_of_block block.now) }
        ensures { Acts A.follows A.out number (terms_in_acts (acts_of_block block.now))
            (do_on (shape_of self.old.app) number behind.first behind.flags (acts_of_block block.now) value.now)
            self.old self.new asker.old asker.new steps.old steps.new result }
    {
        if behind.leaves_out(value) {
            return Ok(Outcome::Stop);
        }
        let observer = Observer {
            number,
            isolated: true,
        };
        self.run_block(alloc, observer, block.as_slice(), asker, steps)
    }

    /// Evaluates the event term, and then does what the statements say.
    fn run_on<A: Asker, L: Ledger>(
        &mut self,
        alloc: Global,
        number: u32,
        behind: Behind,
        event: &Term,
        block: &Block,
        asker: &mut A,
        steps: &mut Steps<L>,
    ) -> Result<Outcome, Memory>
        requires ask { MayAsk (shape_of self.old.app) (A.app asker.old) (A.out asker.old) }
        requires act { MayAct number self.old }
        requires event { IsTermOf (shape_of self.old.app) (tree_of event.now) }
        requires block { AreActsOf (shape_of self.old.app) (acts_of_block block.now) }
        ensures { Acts A.follows A.out number (suc (terms_in_acts (acts_of_block block.now)))
            (on_behind (shape_of self.old.app) number behind.first behind.flags (tree_of event.now) (acts_of_block block.now))
            self.old self.new asker.old asker.new steps.old steps.new result }
    {
        let observer = Observer {
            number,
            isolated: false,
        };
        match self.term(alloc, observer, event, asker, steps)? {
            Outcome::Val(value) => {
                self.run_behind(alloc, number, behind, &value, block, asker, steps)
            }
            failure => Ok(failure),
        }
    }

    /// Does what the text of the observer that runs says.
    fn observe<A: Asker, L: Ledger>(
        &mut self,
        alloc: Global,
        number: u32,
        first: bool,
        item: &Item,
        asker: &mut A,
        steps: &mut Steps<L>,
    ) -> Result<Outcome, Memory>
        requires ask { MayAsk (shape_of self.old.app) (A.app asker.old) (A.out asker.old) }
        requires act { MayAct number self.old }
        requires item { IsObserverOf (shape_of self.old.app) (node_of item.now) }
        ensures { Acts A.follows A.out number (observer_terms (node_of item.now))
            (observe_node (shape_of self.old.app) number first (Some (node_of item.now)))
            self.old self.new asker.old asker.new steps.old steps.new result }
    {
        match item {
            Item::Observe { block, .. } => {
                let observer = Observer {
                    number,
                    isolated: false,
                };
                self.run_block(alloc, observer, block.as_slice(), asker, steps)
            }
            Item::On {
                flags,
                event,
                block,
                ..
            } => {
                let behind = Behind {
                    flags: *flags,
                    first,
                };
                self.run_on(alloc, number, behind, event, block, asker, steps)
            }
            _ => unreachable!(),
        }
    }

    /// Runs an observer, and tells the text with which it failed, if it did.
    pub fn run_observer<A: Asker, L: Ledger>(
        &mut self,
        alloc: Global,
        n: u32,
        item: &Item,
        asker: &mut A,
        steps: &mut Steps<L>,
    ) -> Result<Option<RxText>, Memory>
        requires ask { MayAsk (shape_of self.old.app) (A.app asker.old) (A.out asker.old) }
        requires next { IsNext n self.old }
        requires item { reader (shape_of self.old.app) n ≡ Some (node_of item.now) }
        requires observer { is_observer_at (Some (node_of item.now)) ≡ true }
        ensures { Runs A.follows A.out (observer_terms (node_of item.now)) (make_run (shape_of self.old.app) n)
            self.old self.new asker.old asker.new steps.old steps.new result }
    {
        // From its beginning on it counts as one that has run.
        let first = !self.session.ran(n);
        self.begin(n);
        let outcome = self.observe(alloc, n, first, item, asker, steps)?;
        self.finish(n);
        self.made.runs.push(n)?;
        match outcome {
            Outcome::Fail(why) => Ok(Some(why)),
            _ => Ok(None),
        }
    }
}
