ghost use Rattle.std.specs.Prelude.{◌≡◌, ◌<◌, ◌≤◌, ⊤, length, replicate, IfOk, true, false, Some, None, slice_get};
ghost use Rattle.rx_value.specs.Value.{source_eq};
ghost use Rattle.app_tree.specs.declared.term.Read.TheVariants.{Expr};
ghost use Rattle.app_tree.specs.View.{shape_of};
ghost use Rattle.app_tree.specs.Cover.{is_sound};
ghost use Rattle.app_tree.specs.Current.{value_at};
ghost use Rattle.app_tree.specs.Numbering.{readers, reader};
ghost use Rattle.rx_source.specs.Changing.{change_of};
ghost use Rattle.session_model.specs.Flush.{is_observer_at};
ghost use Rattle.session_model.specs.Standing.{did_run, kept_reader, first_session};
ghost use Rattle.session_steps.specs.Keeping.{lives, kept_answer, IsAlike};
ghost use Rattle.session_steps.specs.Acting.{begin_kept, finish_kept, write_kept};
ghost use Rattle.term_eval.specs.Told.{TellsRead};
ghost use Rattle.react_session.specs.Marking.{marked_by_write};
ghost use Rattle.react_session.specs.Seen.{blank};
ghost use Rattle.react_session.specs.inner.Trail.{on_of_read};

use crate::kept::Kept;
use app_tree::{App, Read};
use dep_graph::{Graph, Marked, On};
use rx_source::{Change, Sources};
use rx_value::{Memory, Outcome, RxList, SourceValue};
use std::alloc::Global;
use std::marker::Model;
use std::sync::Arc;
use term_eval::Answer;

/// A session of one app that keeps outcomes: of each expression and output the one of its last run, which is given again
/// while no source that the run had reached is changed.
#[derive(Drop)]
pub struct Session {
    pub(crate) app: Arc<App>,
    pub(crate) sources: Sources,
    pub(crate) graph: Graph,
    pub(crate) kept: Vec<Kept>,
    /// The observer that runs.
    pub(crate) observer: Option<u32>,
    /// Whether every call so far found the memory that it needed.
    pub(crate) whole: bool,
}

impl Model for Session {
    ghost use Rattle.std.specs.Coded.{codes};
    ghost use Rattle.app_tree.specs.View.{shape_of};
    ghost use Rattle.app_tree.specs.contracts.term.Term as term;
    ghost use Rattle.app_tree.specs.contracts.statement.Statement as statement;
    ghost use Rattle.react_session.specs.Keeping.{Keeping};
    ghost use Rattle.react_session.specs.Seen.{session_seen};
    ghost use Rattle.react_session.specs.Holding.{IsHeld};

    ghost Value = { Keeping };

    ghost coded = { Prim.hlevel (codes, term.the_row.coded, statement.the_row.coded) };

    ghost view = { λ s. record { app = s.app.value; session = session_seen s.sources.values s.graph.readers s.kept.items s.observer; whole = s.whole } };

    ghost invariant = { λ s. IsHeld (shape_of s.app.value) s.sources s.graph s.kept.items s.observer s.whole };
}

/// Nothing is kept of any reader.
fn first_kept(alloc: Global, readers: u32) -> Result<Vec<Kept>, Memory>
    ensures { IfOk result (λ kept. kept.items ≡ replicate readers blank) }
{
    let mut kept = Vec::new(alloc);
    for _reader in 0..readers {
        let pushed = kept.push(Kept {
            ran: false,
            isolated: RxList::new(alloc),
            outcome: Outcome::Stop,
        });
        if pushed.is_err() {
            return Err(Memory);
        }
    }
    Ok(kept)
}

impl Session {
    /// A session of this app in which nothing has run.
    pub fn new(alloc: Global, app: Arc<App>) -> Result<Session, Memory>
        requires { is_sound (shape_of app.value) ≡ true }
        ensures app { IfOk result (λ s. s.app ≡ app.value) }
        ensures session { IfOk result (λ s. s.session ≡ first_session (shape_of app.value)) }
        ensures whole { IfOk result (λ s. s.whole ≡ true) }
    {
        // That the app is well-formed is a part of what holds of a session.
        let _items = app.items();
        let sources = Sources::new(alloc, &app)?;
        let graph = Graph::new(alloc, app.readers(), app.sources())?;
        let kept = first_kept(alloc, app.readers())?;
        Ok(Session {
            app,
            sources,
            graph,
            kept,
            observer: None,
            whole: true,
        })
    }

    /// The current value of a source.
    pub fn source(&self, source: u32) -> &SourceValue
        requires { source < length self.now.session.values }
        ensures { slice_get self.now.session.values source ≡ Some result.now }
    {
        self.sources.get(source)
    }

    /// Whether a reader has run, and no source that its last run had reached was changed after that. Of the observer that
    /// runs: whether no source that it has reached so far was changed after that.
    pub fn alive(&self, n: u32) -> bool
        requires { n < length (readers (shape_of self.now.app)) }
        ensures { result ≡ lives self.now.session n }
    {
        self.graph.alive(n) || self.observer == Some(n) && self.graph.is_current(n)
    }

    /// Whether a reader has run, or is the observer that runs.
    pub fn ran(&self, n: u32) -> bool
        requires { n < length (readers (shape_of self.now.app)) }
        ensures { result ≡ did_run (kept_reader self.now.session n).dependence }
    {
        self.kept[n as usize].ran
    }

    /// Begins the run of an observer, which depends on nothing so far.
    pub fn begin(&mut self, n: u32)
        requires known { n < length (readers (shape_of self.old.app)) }
        requires observer { is_observer_at (reader (shape_of self.old.app) n) ≡ true }
        requires none_runs { self.old.session.running ≡ None }
        requires whole { self.old.whole ≡ true }
        ensures app { self.new.app ≡ self.old.app }
        ensures whole { self.new.whole ≡ true }
        ensures session { IsAlike (begin_kept n self.old.session) self.new.session }
    {
        self.graph.open(n);
        self.kept[n as usize].ran = true;
        self.observer = Some(n);
    }

    /// Ends the run of the observer, and tells whether it is alive now.
    pub fn finish(&mut self, n: u32) -> bool
        requires runs { self.old.session.running ≡ Some n }
        requires whole { self.old.whole ≡ true }
        ensures app { self.new.app ≡ self.old.app }
        ensures whole { self.new.whole ≡ true }
        ensures session { IsAlike (finish_kept self.old.session) self.new.session }
        ensures alive { result ≡ lives self.old.session n }
    {
        self.observer = None;
        self.graph.close(n)
    }

    /// Sets a source. An equal value does nothing. `out` becomes the readers that this marks, in rising order: those that
    /// had reached the source and were alive, the observer that runs among them. It takes no memory.
    pub fn write(&mut self, source: u32, value: SourceValue, out: &mut Marked) -> Change
        requires known { source < length self.old.session.values }
        requires room { length (readers (shape_of self.old.app)) ≤ out.old.room }
        requires whole { self.old.whole ≡ true }
        ensures app { self.new.app ≡ self.old.app }
        ensures whole { self.new.whole ≡ true }
        ensures answer { result ≡ change_of (source_eq (value_at self.old.session.values source) value) }
        ensures session { IsAlike (write_kept source value self.old.session) self.new.session }
        ensures marked { out.new.list ≡ marked_by_write source value self.old.session }
        ensures room { out.old.room ≤ out.new.room }
    {
        match self.sources.set(source, value) {
            Change::Same => {
                out.clear();
                Change::Same
            }
            Change::Changed => {
                self.graph.invalidate(source, out);
                Change::Changed
            }
        }
    }

    /// What is kept of an expression that is alive.
    fn outcome_of(&self, alloc: Global, m: u32) -> Answer
        ensures { TellsRead (record { read = kept_answer (shape_of self.now.app) self.now.session; site = λ site. None }) (Expr m) result ⊤ }
    {
        if (m as usize) >= self.kept.len() || !self.alive(m) {
            return Answer::Wants(m);
        }
        match self.kept[m as usize].outcome.copy(alloc) {
            Ok(outcome) => Answer::Given(outcome),
            Err(Memory) => Answer::Memory,
        }
    }

    /// What a read is answered from what is kept.
    pub(crate) fn kept_answer(&self, alloc: Global, what: Read) -> Answer
        ensures { TellsRead (record { read = kept_answer (shape_of self.now.app) self.now.session; site = λ site. None }) what result ⊤ }
    {
        if let Read::Expr(m) = what {
            return self.outcome_of(alloc, m);
        }
        match self.sources.answer(alloc, what) {
            Ok(outcome) => Answer::Given(outcome),
            Err(Memory) => Answer::Memory,
        }
    }

    /// What a reader depends on by a read.
    pub(crate) fn on_of(&self, what: Read) -> On
        ensures { result ≡ on_of_read (shape_of self.now.app) what }
    {
        match what {
            Read::Input(source) => On::Source(source),
            Read::Value(source) => On::Source(source),
            Read::Status(source) => On::Source(source),
            Read::Result(source) => On::Source(source),
            Read::Width(reader) => On::Source(self.sources.numbers().width(reader)),
            Read::Height(reader) => On::Source(self.sources.numbers().height(reader)),
            Read::Expr(m) => On::Expr(m),
        }
    }
}
