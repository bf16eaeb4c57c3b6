//! A term of the observer that runs.

ghost use Rattle.std.specs.Prelude.{◌≡◌, [], true, false, length, Some, OnOk, OnErr, is_ok};
ghost use Rattle.app_tree.specs.View.{shape_of, tree_of};
ghost use Rattle.app_tree.specs.Numbering.{readers};
ghost use Rattle.app_tree.specs.Cover.{reads_in};
ghost use Rattle.app_tree.specs.Trace.{Every};
ghost use Rattle.app_laws.specs.Orderly.{ReadsBelow, ReadsSources};
ghost use Rattle.session_steps.specs.Keeping.{lives, IsAlike};
ghost use Rattle.session_steps.specs.Bringing.{IsLost};
ghost use Rattle.react_session.specs.Terms.{TermComes};
ghost use Rattle.react_session.specs.inner.Storing.{MayReach, StandsInAnyOrder};
ghost use Rattle.react_session.specs.inner.Terms.{TriesTerm, reached_kept};

use crate::attempt::{Ran, Tried, reading};
use crate::session::Session;
use crate::storing::depend_on_all;
use app_tree::Term;
use dep_graph::On;
use rx_value::{Memory, Outcome, Values};
use std::alloc::Global;
use std::sync::ledger::Ledger;
use term_eval::{Asker, Evaled, Steps, eval};

/// Evaluates a term of an observer over what is kept. Each isolated site of it is evaluated.
fn try_term(alloc: Global, session: &Session, term: &Term) -> Tried
    ensures { TriesTerm (shape_of session.now.app) session.now.session (tree_of term.now) result }
{
    let none = Values::new(alloc);
    let mut reading = reading(alloc, session, None);
    match eval(alloc, term, &none, &mut reading) {
        Evaled::Done(outcome) => Tried::Done(Ran {
            reached: reading.reached,
            isolated: reading.isolated,
            outcome,
        }),
        Evaled::Wants(m) => Tried::Wants(m),
        Evaled::Memory => Tried::Memory,
    }
}

impl Session {
    /// The observer that runs, which no change has overtaken, has reached these. Where memory is wanting it may have reached
    /// some of them, and the session is whole no longer.
    fn reach(&mut self, alloc: Global, n: u32, reached: &[On]) -> Result<(), Memory>
        requires runs { self.old.session.running ≡ Some n }
        requires lives { lives self.old.session n ≡ true }
        requires reached { Every (MayReach (shape_of self.old.app) n self.old.session) reached.now }
        requires whole { self.old.whole ≡ true }
        requires stands { StandsInAnyOrder (shape_of self.old.app) (reached_kept n reached.now self.old.session) }
        ensures app { self.new.app ≡ self.old.app }
        ensures reached { OnOk result (IsAlike (reached_kept n reached.now self.old.session) self.new.session) }
        ensures whole { OnOk result (self.new.whole ≡ true) }
        ensures lost { OnErr result (IsLost n self.old.session self.new.session) }
        ensures broken { OnErr result (self.new.whole ≡ false) }
    {
        match depend_on_all(&mut self.graph, alloc, n, reached) {
            Ok(()) => Ok(()),
            Err(Memory) => {
                self.whole = false;
                Err(Memory)
            }
        }
    }

    /// What a term of the observer that runs comes to. Where it wants an expression that isn't alive, this one is made alive
    /// first, as by `force`, and the term is evaluated anew. What it reads counts as reached by the observer, unless the term
    /// is isolated, or a source that the observer had reached was changed since it began.
    pub fn term<A: Asker, L: Ledger>(
        &mut self,
        alloc: Global,
        n: u32,
        term: &Term,
        isolated: bool,
        asker: &mut A,
        steps: &mut Steps<L>,
    ) -> Result<Outcome, Memory>
        requires runs { self.old.session.running ≡ Some n }
        requires reads { Every (ReadsBelow (shape_of self.old.app) (length (readers (shape_of self.old.app))))
            (reads_in (tree_of term.now)) }
        requires own { Every (ReadsSources (shape_of self.old.app)) (reads_in (tree_of term.now)) }
        requires whole { self.old.whole ≡ true }
        requires of_app { A.app asker.old ≡ shape_of self.old.app }
        requires none_out { A.out asker.old ≡ [] }
        ensures app { self.new.app ≡ self.old.app }
        ensures comes { TermComes (shape_of self.old.app) n isolated (tree_of term.now)
            self.old.session self.new.session steps.old steps.new result }
        ensures values { self.new.session.values ≡ self.old.session.values }
        ensures running { self.new.session.running ≡ self.old.session.running }
        ensures whole { self.new.whole ≡ is_ok result }
        ensures follows { A.follows asker.new asker.old }
        ensures none_out { A.out asker.new ≡ [] }
    {
        // What is read after a change has overtaken the observer doesn't count.
        let counts = !isolated && self.graph.is_current(n);
        match try_term(alloc, self, term) {
            Tried::Done(ran) => {
                let Ran {
                    reached,
                    outcome,
                    isolated: _,
                } = ran;
                if counts {
                    self.reach(alloc, n, reached.as_slice())?;
                }
                Ok(outcome)
            }
            Tried::Wants(m) => {
                self.settle(alloc, m, asker, steps)?;
                self.term(alloc, n, term, isolated, asker, steps)
            }
            Tried::Memory => Err(self.lose()),
        }
    }
}
