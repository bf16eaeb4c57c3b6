//! Readers are made alive: an expression that is wanted, and an output that is run.
//!
//! A reader is evaluated on what is kept. Where that wants an expression, this one is made alive first, and then the reader is
//! evaluated anew from its start. The calls below lead to each other; each needs fewer readers that aren't alive than the one
//! before, or is nearer to the end of one run.

ghost use Rattle.std.specs.Prelude.{◌≡◌, true, false, Some, is_some, OnOk, OnErr};
ghost use Rattle.app_tree.specs.View.{shape_of, node_of};
ghost use Rattle.app_tree.specs.Numbering.{reader};
ghost use Rattle.app_tree.specs.Cover.{cached_node};
ghost use Rattle.app_tree.specs.Fresh.{is_expression_at};
ghost use Rattle.app_tree.specs.Trace.{Every};
ghost use Rattle.session_steps.specs.Keeping.{lives, IsAlike};
ghost use Rattle.session_steps.specs.Bringing.{reading, running, IsLost};
ghost use Rattle.term_eval.specs.Bodies.{IsCached, IsUncached};
ghost use Rattle.term_eval.specs.Lent.{IsOut, without};
ghost use Rattle.react_session.specs.declared.attempt.KeysTried.TheVariants as tried;
ghost use Rattle.react_session.specs.inner.Making.{MayMakeFor, MayMakeBehind, MayRun, IsReady, Makes, shown_kept};
ghost use Rattle.react_session.specs.inner.Storing.{is_evaluated_at, MayReach, StandsInAnyOrder};
ghost use Rattle.react_session.specs.inner.Tries.{TriesKeys};

use crate::attempt::{KeysTried, Notes, Ran, Tried, try_body, try_cached_body, try_keys};
use crate::session::Session;
use app_tree::Item;
use rx_value::{Key, Memory, Outcome};
use std::alloc::Global;
use std::sync::ledger::Ledger;
use term_eval::{Asked, Asker, Evaled, Steps, last_step};

/// Whether an expression or an output has keys.
fn has_keys(item: &Item) -> bool
    requires { is_evaluated_at (Some (node_of item.now)) ≡ true }
    ensures { result ≡ is_some (cached_node (Some (node_of item.now))) }
{
    match item {
        Item::Reactive { keys, .. } => !keys.is_empty(),
        Item::Text { output, .. } => !output.keys.is_empty(),
        Item::Plot { output, .. } => !output.keys.is_empty(),
        _ => false,
    }
}

impl Session {
    /// Memory is wanting: the session is whole no longer.
    pub(crate) fn lose(&mut self) -> Memory
        ensures app { self.new.app ≡ self.old.app }
        ensures session { self.new.session ≡ self.old.session }
        ensures whole { self.new.whole ≡ false }
    {
        self.whole = false;
        Memory
    }

    /// Keeps what a cached reader came to, of which a cache has this outcome, by the notes of its keys.
    fn keep_cached(
        &mut self,
        alloc: Global,
        n: u32,
        notes: Notes,
        outcome: Outcome,
    ) -> Result<(), Memory>
        requires evaluated { is_evaluated_at (reader (shape_of self.old.app) n) ≡ true }
        requires dead { is_expression_at (reader (shape_of self.old.app) n) ≡ true → lives self.old.session n ≡ false }
        requires reached { Every (MayReach (shape_of self.old.app) n self.old.session) notes.reached }
        requires whole { self.old.whole ≡ true }
        requires stands { StandsInAnyOrder (shape_of self.old.app) (shown_kept n notes outcome self.old) }
        ensures app { self.new.app ≡ self.old.app }
        ensures stored { OnOk result (IsAlike (shown_kept n notes outcome self.old) self.new.session) }
        ensures whole { OnOk result (self.new.whole ≡ true) }
        ensures lost { OnErr result (IsLost n self.old.session self.new.session) }
        ensures broken { OnErr result (self.new.whole ≡ false) }
    {
        match last_step(alloc, &self.app, n, outcome) {
            Ok(shown) => {
                let Notes { reached, isolated } = notes;
                self.store(alloc, n, reached.as_slice(), isolated, shown)
            }
            Err(Memory) => Err(self.lose()),
        }
    }

    /// Makes an expression alive.
    #[cycle(force)]
    pub(crate) fn settle<A: Asker, L: Ledger>(
        &mut self,
        alloc: Global,
        n: u32,
        asker: &mut A,
        steps: &mut Steps<L>,
    ) -> Result<(), Memory>
        requires expression { is_expression_at (reader (shape_of self.old.app) n) ≡ true }
        requires may { MayMakeFor n self.old (A.app asker.old) (A.out asker.old) }
        ensures { Makes A.follows A.out (A.out asker.old) reading n
            self.old self.new asker.old asker.new steps.old steps.new result }
    {
        if self.alive(n) {
            return Ok(());
        }
        self.run(alloc, n, asker, steps)
    }

    /// Runs an output, or an expression that isn't alive.
    #[cycle(force)]
    pub(crate) fn run<A: Asker, L: Ledger>(
        &mut self,
        alloc: Global,
        n: u32,
        asker: &mut A,
        steps: &mut Steps<L>,
    ) -> Result<(), Memory>
        requires may { MayMakeFor n self.old (A.app asker.old) (A.out asker.old) }
        requires run { MayRun (shape_of self.old.app) n self.old.session }
        ensures { Makes A.follows A.out (A.out asker.old) running n
            self.old self.new asker.old asker.new steps.old steps.new result }
    {
        if has_keys(self.app.reader(n)) {
            self.run_keyed(alloc, n, asker, steps)
        } else {
            self.run_plain(alloc, n, asker, steps)
        }
    }

    /// Runs a reader without keys.
    #[cycle(force)]
    fn run_plain<A: Asker, L: Ledger>(
        &mut self,
        alloc: Global,
        n: u32,
        asker: &mut A,
        steps: &mut Steps<L>,
    ) -> Result<(), Memory>
        requires may { MayMakeFor n self.old (A.app asker.old) (A.out asker.old) }
        requires run { MayRun (shape_of self.old.app) n self.old.session }
        requires ready { IsReady (shape_of self.old.app) self.old.session }
        requires uncached { IsUncached (reader (shape_of self.old.app) n) }
        ensures { Makes A.follows A.out (A.out asker.old) running n
            self.old self.new asker.old asker.new steps.old steps.new result }
    {
        match try_body(alloc, self, n, steps) {
            Tried::Done(ran) => {
                let Ran {
                    reached,
                    isolated,
                    outcome,
                } = ran;
                self.store(alloc, n, reached.as_slice(), isolated, outcome)
            }
            Tried::Wants(m) => {
                self.settle(alloc, m, asker, steps)?;
                self.run_plain(alloc, n, asker, steps)
            }
            Tried::Memory => Err(self.lose()),
        }
    }

    /// Runs a cached reader: its keys first.
    #[cycle(force)]
    fn run_keyed<A: Asker, L: Ledger>(
        &mut self,
        alloc: Global,
        n: u32,
        asker: &mut A,
        steps: &mut Steps<L>,
    ) -> Result<(), Memory>
        requires may { MayMakeFor n self.old (A.app asker.old) (A.out asker.old) }
        requires run { MayRun (shape_of self.old.app) n self.old.session }
        requires ready { IsReady (shape_of self.old.app) self.old.session }
        requires cached { IsCached (reader (shape_of self.old.app) n) }
        ensures { Makes A.follows A.out (A.out asker.old) running n
            self.old self.new asker.old asker.new steps.old steps.new result }
    {
        match try_keys(alloc, self, n) {
            KeysTried::Key(key, notes) => self.ask(alloc, n, key, notes, asker, steps),
            KeysTried::Fails(ran) => {
                let Ran {
                    reached,
                    isolated,
                    outcome,
                } = ran;
                self.store(alloc, n, reached.as_slice(), isolated, outcome)
            }
            KeysTried::Wants(m) => {
                self.settle(alloc, m, asker, steps)?;
                self.run_keyed(alloc, n, asker, steps)
            }
            KeysTried::Memory => Err(self.lose()),
        }
    }

    /// Asks for the outcome of a cached reader whose keys came to values.
    #[cycle(force)]
    fn ask<A: Asker, L: Ledger>(
        &mut self,
        alloc: Global,
        n: u32,
        key: Key,
        notes: Notes,
        asker: &mut A,
        steps: &mut Steps<L>,
    ) -> Result<(), Memory>
        requires may { MayMakeFor n self.old (A.app asker.old) (A.out asker.old) }
        requires run { MayRun (shape_of self.old.app) n self.old.session }
        requires ready { IsReady (shape_of self.old.app) self.old.session }
        requires cached { IsCached (reader (shape_of self.old.app) n) }
        requires keyed { TriesKeys (shape_of self.old.app) self.old.session n (tried.Key key notes) }
        ensures { Makes A.follows A.out (A.out asker.old) running n
            self.old self.new asker.old asker.new steps.old steps.new result }
    {
        match asker.claim(alloc, &key) {
            Asked::Hit(outcome) => self.keep_cached(alloc, n, notes, outcome),
            Asked::Go(leave) => self.run_claimed(alloc, n, notes, leave, asker, steps),
            Asked::Memory => Err(self.lose()),
        }
    }

    /// Runs the body of a cached reader with the Leave of its key, which it spends. An expression that the body wants is made
    /// alive while the Leave is out.
    #[cycle(force)]
    fn run_claimed<A: Asker, L: Ledger>(
        &mut self,
        alloc: Global,
        n: u32,
        notes: Notes,
        leave: A::Leave,
        asker: &mut A,
        steps: &mut Steps<L>,
    ) -> Result<(), Memory>
        requires may { MayMakeBehind n self.old (A.app asker.old) (A.out asker.old) }
        requires run { MayRun (shape_of self.old.app) n self.old.session }
        requires ready { IsReady (shape_of self.old.app) self.old.session }
        requires cached { IsCached (reader (shape_of self.old.app) n) }
        requires keyed { TriesKeys (shape_of self.old.app) self.old.session n (tried.Key (A.lent leave).key notes) }
        requires out { IsOut (A.lent leave) (A.out asker.old) }
        ensures { Makes A.follows A.out (without (A.lent leave).key (A.out asker.old)) running n
            self.old self.new asker.old asker.new steps.old steps.new result }
    {
        match try_cached_body::<A, L>(alloc, self, n, &leave, steps) {
            Evaled::Done(outcome) => {
                asker.fill(alloc, leave, &outcome);
                self.keep_cached(alloc, n, notes, outcome)
            }
            Evaled::Wants(m) => match self.settle(alloc, m, asker, steps) {
                Ok(()) => self.run_claimed(alloc, n, notes, leave, asker, steps),
                Err(Memory) => {
                    asker.abandon(leave);
                    Err(Memory)
                }
            },
            Evaled::Memory => {
                asker.abandon(leave);
                Err(self.lose())
            }
        }
    }
}
