ghost use Rattle.std.specs.Prelude.{◌≡◌, IfOk};
ghost use Rattle.app_tree.specs.View.{shape_of};
ghost use Rattle.session_model.specs.State.{first_state};
ghost use Rattle.session_model.specs.Alone.{flush_with_pairs};
ghost use Rattle.session_model.specs.Texts.{first_texts, later_texts};
ghost use Rattle.taken_cycle.specs.Built.{IsBuilt};
ghost use Rattle.taken_cycle.specs.Flushing.{FlushGives, flushed_of, stage_after};

use crate::event::{first_event, later_event};
use crate::flushed::Flushed;
use crate::stage::Stage;
use crate::start::first_readers;
use crate::texts::EventTexts;
use app_tree::App;
use rx_source::starting_values;
use rx_value::{Memory, RxText, SourceValue};
use session_model::ReaderState;
use shiny_json::ClientData;
use std::alloc::Global;
use std::marker::Model;
use std::sync::Arc;

/// A session's events, applied one at a time: its init, then its updates.
#[derive(Drop)]
pub struct Flusher {
    app: Arc<App>,
    values: Vec<SourceValue>,
    readers: Vec<ReaderState>,
    stage: Stage,
}

impl Model for Flusher {
    ghost use Rattle.std.specs.Coded.{codes};
    ghost use Rattle.app_tree.specs.contracts.term.Term as term;
    ghost use Rattle.app_tree.specs.contracts.statement.Statement as statement;
    ghost use Rattle.taken_cycle.specs.Flushing.{Flushing};
    ghost use Rattle.taken_cycle.specs.State.{state_of, AreThawed};
    ghost use Rattle.taken_cycle.specs.Built.{IsBuilt};
    ghost use Rattle.app_tree.specs.View.{shape_of};

    ghost Value = { Flushing };

    ghost coded = { Prim.hlevel (codes, term.the_row.coded, statement.the_row.coded) };

    ghost invariant = { λ f. IsBuilt (shape_of f.app.value) × AreThawed f.values.items };

    ghost view = { λ f. record { app = f.app.value; state = state_of f.values.items f.readers.items; stage = f.stage } };
}

fn flushed_of(sent: Result<EventTexts, Memory>) -> Flushed
    ensures { result ≡ flushed_of sent }
{
    match sent {
        Ok(
            EventTexts {
                texts,
                spent: false,
            },
        ) => Flushed::Done(texts),
        Ok(EventTexts { texts, spent: true }) => Flushed::BudgetSpent(texts),
        Err(Memory) => Flushed::Memory,
    }
}

fn stage_after(flushed: &Flushed) -> Stage
    ensures { result ≡ stage_after flushed.now }
{
    match flushed {
        Flushed::Done(_) => Stage::Open,
        Flushed::BudgetSpent(_) => Stage::Over,
        Flushed::Memory => Stage::Over,
    }
}

impl Flusher {
    /// A session of this app before its first event.
    pub fn new(alloc: Global, app: Arc<App>) -> Result<Flusher, Memory>
        requires { IsBuilt (shape_of app.value) }
        ensures app { IfOk result (λ f. f.app ≡ app.value) }
        ensures state { IfOk result (λ f. f.state ≡ first_state (shape_of app.value)) }
        ensures stage { IfOk result (λ f. f.stage ≡ Stage.New) }
    {
        let values = starting_values(alloc, app.items().as_slice())?;
        let readers = first_readers(alloc, app.items().as_slice())?;
        Ok(Flusher {
            app,
            values,
            readers,
            stage: Stage::New,
        })
    }

    /// How far the session has come.
    pub fn stage(&self) -> Stage
        ensures { result ≡ self.now.stage }
    {
        self.stage
    }

    /// Applies the session's init: sets what its pairs say, in their order, and runs what waits.
    /// Its texts are the first of the session with this label.
    pub fn init(&mut self, alloc: Global, label: &RxText, pairs: &ClientData) -> Flushed
        requires { self.old.stage ≡ Stage.New }
        ensures flush { let app = shape_of self.old.app in
            let f = flush_with_pairs app pairs.now self.old.state in
            FlushGives (first_texts app label.now f) f self.new.state result }
        ensures app { self.new.app ≡ self.old.app }
        ensures stage { self.new.stage ≡ stage_after result }
    {
        let sent = first_event(
            alloc,
            &self.app,
            &mut self.values,
            &mut self.readers,
            label,
            pairs.as_slice(),
        );
        let flushed = flushed_of(sent);
        self.stage = stage_after(&flushed);
        flushed
    }

    /// Applies an update: sets what its pairs say, in their order, and runs what waits.
    pub fn update(&mut self, alloc: Global, pairs: &ClientData) -> Flushed
        requires { self.old.stage ≡ Stage.Open }
        ensures flush { let app = shape_of self.old.app in
            let f = flush_with_pairs app pairs.now self.old.state in
            FlushGives (later_texts app f) f self.new.state result }
        ensures app { self.new.app ≡ self.old.app }
        ensures stage { self.new.stage ≡ stage_after result }
    {
        let sent = later_event(
            alloc,
            &self.app,
            &mut self.values,
            &mut self.readers,
            pairs.as_slice(),
        );
        let flushed = flushed_of(sent);
        self.stage = stage_after(&flushed);
        flushed
    }
}
