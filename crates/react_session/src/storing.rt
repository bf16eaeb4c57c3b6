//! What a run comes to is kept.

ghost use Rattle.std.specs.Prelude.{◌≡◌, ◌<◌, length, true, false, OnOk, OnErr};
ghost use Rattle.app_tree.specs.View.{shape_of};
ghost use Rattle.app_tree.specs.Numbering.{reader};
ghost use Rattle.app_tree.specs.Fresh.{is_expression_at};
ghost use Rattle.app_tree.specs.Trace.{Every};
ghost use Rattle.session_steps.specs.Keeping.{lives, IsAlike};
ghost use Rattle.session_steps.specs.Bringing.{IsLost};
ghost use Rattle.dep_graph.specs.Contexts.{is_running};
ghost use Rattle.dep_graph.specs.Conditions.{IsWithin};
ghost use Rattle.dep_graph.specs.SameGraph.{IsSameGraph};
ghost use Rattle.react_session.specs.inner.Storing.{is_evaluated_at, stored_kept, MayReach, StandsInAnyOrder, after_depends, StillRuns};

use crate::kept::Kept;
use crate::session::Session;
use dep_graph::{Graph, On};
use rx_value::{Memory, Outcome, RxList};
use std::alloc::Global;

/// The running reader depends on each of these.
pub fn depend_on_all(graph: &mut Graph, alloc: Global, n: u32, reached: &[On]) -> Result<(), Memory>
    requires within { n < length graph.old.readers }
    requires runs { is_running graph.old n ≡ true }
    requires reached { Every (IsWithin graph.old n) reached.now }
    ensures ok { OnOk result (IsSameGraph graph.new (after_depends n reached.now graph.old)) }
    ensures runs { StillRuns n graph.old graph.new }
{
    for on in reached {
        graph.depend(alloc, n, *on)?;
    }
    Ok(())
}

impl Session {
    /// Keeps what the run of an expression or an output came to: what it depends on, the outcomes of its isolated sites and
    /// its own. Where memory is wanting the reader is left in the midst of its run, and the session is whole no longer.
    pub(crate) fn store(
        &mut self,
        alloc: Global,
        n: u32,
        reached: &[On],
        isolated: RxList<(usize, Outcome)>,
        outcome: Outcome,
    ) -> Result<(), Memory>
        requires evaluated { is_evaluated_at (reader (shape_of self.old.app) n) ≡ true }
        requires dead { is_expression_at (reader (shape_of self.old.app) n) ≡ true → lives self.old.session n ≡ false }
        requires reached { Every (MayReach (shape_of self.old.app) n self.old.session) reached.now }
        requires whole { self.old.whole ≡ true }
        requires stands { StandsInAnyOrder (shape_of self.old.app) (stored_kept n reached.now isolated outcome self.old.session) }
        ensures app { self.new.app ≡ self.old.app }
        ensures stored { OnOk result (IsAlike (stored_kept n reached.now isolated outcome self.old.session) self.new.session) }
        ensures whole { OnOk result (self.new.whole ≡ true) }
        ensures lost { OnErr result (IsLost n self.old.session self.new.session) }
        ensures broken { OnErr result (self.new.whole ≡ false) }
    {
        self.graph.open(n);
        match depend_on_all(&mut self.graph, alloc, n, reached) {
            Ok(()) => {
                self.graph.close(n);
                self.kept[n as usize] = Kept {
                    ran: true,
                    isolated,
                    outcome,
                };
                Ok(())
            }
            Err(Memory) => {
                self.whole = false;
                Err(Memory)
            }
        }
    }
}
