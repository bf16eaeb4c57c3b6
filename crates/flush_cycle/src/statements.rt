//! The statements of the observer that runs.

ghost use Rattle.std.specs.Prelude.{◌≡◌, ◌<◌, ◌+◌, suc, length, IfOk};
ghost use Rattle.rx_value.specs.declared.source.SourceValue.TheVariants.{Plain};
ghost use Rattle.app_tree.specs.Tree as tree;
ghost use Rattle.app_tree.specs.View.{shape_of, tree_of, trees_of_terms, act_of, acts_of_block};
ghost use Rattle.app_tree.specs.Numbering.{starting_values};
ghost use Rattle.app_tree.specs.ObserverTerms.{term_count, terms_in_act, terms_in_acts};
ghost use Rattle.app_laws.specs.Statements.{IsTaskSource};
ghost use Rattle.session_model.specs.Change.{change, frozen_value};
ghost use Rattle.session_model.specs.Observing as observing;
ghost use Rattle.app_tree.specs.Current.{value_at};
ghost use Rattle.flush_cycle.specs.inner.Statements.{IsTermOf, AreTermsOf, IsActOf, AreActsOf};
ghost use Rattle.flush_cycle.specs.Working.{IsReady};
ghost use Rattle.flush_cycle.specs.inner.Acting.{MayAsk, MayAct, Does, Acts};

use crate::work::Work;
use app_tree::{Statement, Term};
use rx_value::{Failure, Memory, Outcome, RxText, SourceValue, Value, Values};
use shiny_json::Pair;
use std::alloc::Global;
use std::sync::ledger::Ledger;
use term_eval::{Asker, Steps};

/// The observer that runs.
#[derive(Clone, Copy, Debug, PartialEq, Eq)]
pub struct Observer {
    pub number: u32,
    /// Whether what it reads doesn't count, as in the statements behind an event term.
    pub isolated: bool,
}

/// The outcome of a statement behind which the next one follows.
pub const DONE: Outcome = Outcome::Val(Value::Null);

// ---- what statements do with values

impl Work {
    fn put(&mut self, source: u32, value: Value) -> Result<Outcome, Memory>
        requires known { source < length (starting_values (shape_of self.old.app).items) }
        requires ready { IsReady self.old }
        ensures { Does (λ state. observing.done_result (change source (Plain value) state)) self.old self.new result }
    {
        self.write(source, SourceValue::Plain(value));
        Ok(DONE)
    }

    /// An input that is frozen already stays so.
    fn freeze(&mut self, alloc: Global, source: u32) -> Result<Outcome, Memory>
        requires known { source < length (starting_values (shape_of self.old.app).items) }
        requires ready { IsReady self.old }
        ensures { Does (λ state. observing.done_result (change source (frozen_value (value_at state.values source)) state))
            self.old self.new result }
    {
        let SourceValue::Plain(value) = self.session.source(source) else {
            return Ok(DONE);
        };
        let value = value.copy(alloc)?;
        self.write(source, SourceValue::Frozen(value));
        Ok(DONE)
    }

    fn input_name(&self, alloc: Global, source: u32) -> Result<RxText, Memory>
        ensures { IfOk result (λ name. name ≡ observing.input_name (shape_of self.now.app) source) }
    {
        match self.app.source(source) {
            Some(item) => item.name().copy(alloc),
            None => RxText::from_str(alloc, ""),
        }
    }

    /// Tells the client to set an input.
    fn tell_input(&mut self, alloc: Global, source: u32, value: Value) -> Result<Outcome, Memory>
        requires { IsReady self.old }
        ensures { Does (observing.tell_input (shape_of self.old.app) source value) self.old self.new result }
    {
        let name = self.input_name(alloc, source)?;
        self.made.batch.messages.push(Pair { name, value })?;
        Ok(DONE)
    }
}

// ---- terms and what is done with them

impl Work {
    /// What a term of the observer comes to.
    pub fn term<A: Asker, L: Ledger>(
        &mut self,
        alloc: Global,
        observer: Observer,
        term: &Term,
        asker: &mut A,
        steps: &mut Steps<L>,
    ) -> Result<Outcome, Memory>
        requires ask { MayAsk (shape_of self.old.app) (A.app asker.old) (A.out asker.old) }
        requires act { MayAct observer.number self.old }
        requires term { IsTermOf (shape_of self.old.app) (tree_of term.now) }
        ensures { Acts A.follows A.out observer.number 1
            (observing.run_statement (shape_of self.old.app) observer.number observer.isolated (tree.perform (tree_of term.now)))
            self.old self.new asker.old asker.new steps.old steps.new result }
    {
        self.session.term(
            alloc,
            observer.number,
            term,
            observer.isolated,
            asker,
            steps,
        )
    }

    fn set<A: Asker, L: Ledger>(
        &mut self,
        alloc: Global,
        observer: Observer,
        source: u32,
        term: &Term,
        asker: &mut A,
        steps: &mut Steps<L>,
    ) -> Result<Outcome, Memory>
        requires ask { MayAsk (shape_of self.old.app) (A.app asker.old) (A.out asker.old) }
        requires act { MayAct observer.number self.old }
        requires term { IsTermOf (shape_of self.old.app) (tree_of term.now) }
        requires known { source < length (starting_values (shape_of self.old.app).items) }
        ensures { Acts A.follows A.out observer.number 1
            (observing.run_statement (shape_of self.old.app) observer.number observer.isolated (tree.set source (tree_of term.now)))
            self.old self.new asker.old asker.new steps.old steps.new result }
    {
        match self.term(alloc, observer, term, asker, steps)? {
            Outcome::Val(value) => self.put(source, value),
            failure => Ok(failure),
        }
    }

    fn update<A: Asker, L: Ledger>(
        &mut self,
        alloc: Global,
        observer: Observer,
        source: u32,
        term: &Term,
        asker: &mut A,
        steps: &mut Steps<L>,
    ) -> Result<Outcome, Memory>
        requires ask { MayAsk (shape_of self.old.app) (A.app asker.old) (A.out asker.old) }
        requires act { MayAct observer.number self.old }
        requires term { IsTermOf (shape_of self.old.app) (tree_of term.now) }
        ensures { Acts A.follows A.out observer.number 1
            (observing.run_statement (shape_of self.old.app) observer.number observer.isolated (tree.update source (tree_of term.now)))
            self.old self.new asker.old asker.new steps.old steps.new result }
    {
        match self.term(alloc, observer, term, asker, steps)? {
            Outcome::Val(value) => self.tell_input(alloc, source, value),
            failure => Ok(failure),
        }
    }

    /// Starts the task of this source number on the values of the terms, or lets the invocation wait.
    fn invoke<A: Asker, L: Ledger>(
        &mut self,
        alloc: Global,
        observer: Observer,
        source: u32,
        terms: &[Term],
        asker: &mut A,
        steps: &mut Steps<L>,
    ) -> Result<Outcome, Memory>
        requires ask { MayAsk (shape_of self.old.app) (A.app asker.old) (A.out asker.old) }
        requires act { MayAct observer.number self.old }
        requires terms { AreTermsOf (shape_of self.old.app) (trees_of_terms terms.now) }
        requires task { IsTaskSource (shape_of self.old.app) source (term_count (trees_of_terms terms.now)) }
        ensures { Acts A.follows A.out observer.number (term_count (trees_of_terms terms.now))
            (observing.run_statement (shape_of self.old.app) observer.number observer.isolated
            (tree.invoke source (trees_of_terms terms.now)))
            self.old self.new asker.old asker.new steps.old steps.new result }
    {
        let mut args = Values::new(alloc);
        for term in terms {
            match self.term(alloc, observer, term, asker, steps)? {
                Outcome::Val(value) => args.push(value)?,
                failure => return Ok(failure),
            }
        }
        self.start(alloc, source - self.first_task, args)
    }

    /// Runs the block that the condition chooses.
    #[cycle(statement)]
    fn branch<A: Asker, L: Ledger>(
        &mut self,
        alloc: Global,
        observer: Observer,
        condition: &Term,
        block: &[Statement],
        other: &[Statement],
        asker: &mut A,
        steps: &mut Steps<L>,
    ) -> Result<Outcome, Memory>
        requires ask { MayAsk (shape_of self.old.app) (A.app asker.old) (A.out asker.old) }
        requires act { MayAct observer.number self.old }
        requires condition { IsTermOf (shape_of self.old.app) (tree_of condition.now) }
        requires block { AreActsOf (shape_of self.old.app) (acts_of_block block.now) }
        requires other { AreActsOf (shape_of self.old.app) (acts_of_block other.now) }
        ensures { Acts A.follows A.out observer.number
            (suc (terms_in_acts (acts_of_block block.now) + terms_in_acts (acts_of_block other.now)))
            (observing.run_statement (shape_of self.old.app) observer.number observer.isolated
            (tree.branch_else (tree_of condition.now) (acts_of_block block.now) (acts_of_block other.now)))
            self.old self.new asker.old asker.new steps.old steps.new result }
    {
        match self.term(alloc, observer, condition, asker, steps)? {
            Outcome::Val(Value::Bool(true)) => self.run_block(alloc, observer, block, asker, steps),
            Outcome::Val(Value::Bool(false)) => self.run_block(
                alloc, observer, other, asker, steps,
            ),
            Outcome::Val(_) => Failure::NotACondition.outcome(alloc),
            failure => Ok(failure),
        }
    }

    #[cycle(statement)]
    fn run_statement<A: Asker, L: Ledger>(
        &mut self,
        alloc: Global,
        observer: Observer,
        statement: &Statement,
        asker: &mut A,
        steps: &mut Steps<L>,
    ) -> Result<Outcome, Memory>
        requires ask { MayAsk (shape_of self.old.app) (A.app asker.old) (A.out asker.old) }
        requires act { MayAct observer.number self.old }
        requires statement { IsActOf (shape_of self.old.app) (act_of statement.now) }
        ensures { Acts A.follows A.out observer.number (terms_in_act (act_of statement.now))
            (observing.run_statement (shape_of self.old.app) observer.number observer.isolated (act_of statement.now))
            self.old self.new asker.old asker.new steps.old steps.new result }
    {
        match statement {
            Statement::Set(source, term) => self.set(alloc, observer, *source, term, asker, steps),
            Statement::Invoke(source, terms) => {
                self.invoke(alloc, observer, *source, terms.as_slice(), asker, steps)
            }
            Statement::Update(source, term) => {
                self.update(alloc, observer, *source, term, asker, steps)
            }
            Statement::Freeze(source) => self.freeze(alloc, *source),
            Statement::Do(term) => self.term(alloc, observer, term, asker, steps),
            Statement::If(condition, block) => {
                self.branch(
                    alloc,
                    observer,
                    condition,
                    block.as_slice(),
                    &[],
                    asker,
                    steps,
                )
            }
            Statement::IfElse(condition, block, other) => {
                let (block, other) = (block.as_slice(), other.as_slice());
                self.branch(alloc, observer, condition, block, other, asker, steps)
            }
        }
    }

    /// Runs statements in their order, up to the first that fails.
    #[cycle(statement)]
    pub fn run_block<A: Asker, L: Ledger>(
        &mut self,
        alloc: Global,
        observer: Observer,
        block: &[Statement],
        asker: &mut A,
        steps: &mut Steps<L>,
    ) -> Result<Outcome, Memory>
        requires ask { MayAsk (shape_of self.old.app) (A.app asker.old) (A.out asker.old) }
        requires act { MayAct observer.number self.old }
        requires block { AreActsOf (shape_of self.old.app) (acts_of_block block.now) }
        ensures { Acts A.follows A.out observer.number (terms_in_acts (acts_of_block block.now))
            (observing.run_block (shape_of self.old.app) observer.number observer.isolated (acts_of_block block.now))
            self.old self.new asker.old asker.new steps.old steps.new result }
    {
        for statement in block {
            match self.run_statement(alloc, observer, statement, asker, steps)? {
                Outcome::Val(_) => {}
                failure => return Ok(failure),
            }
        }
        Ok(DONE)
    }
}
