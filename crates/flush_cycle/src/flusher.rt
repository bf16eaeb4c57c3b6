ghost use Rattle.std.specs.Prelude.{◌≡◌, ◌≢◌, ◌<◌, ◌≤◌, ◌+◌, [], IfOk, Some, None, true, false, length, filter, option_map};
ghost use Rattle.app_tree.specs.Cover.{is_sound};
ghost use Rattle.app_tree.specs.Numbering.{readers, is_task};
ghost use Rattle.app_tree.specs.View.{shape_of};
ghost use Rattle.session_model.specs.Alone.{flush_with_pairs};
ghost use Rattle.session_model.specs.Standing.{first_kept_flush, kept_output};
ghost use Rattle.session_model.specs.Texts.{first_texts, later_texts};
ghost use Rattle.task_board.specs.Board.{board_at, running_number};
ghost use Rattle.flush_cycle.specs.Jobs.{IsOfRunning, IsNextJob};
ghost use Rattle.flush_cycle.specs.Waits.{IsSettled};
ghost use Rattle.flush_cycle.specs.Flushing.{Flushes, StartsBehind, IfDone, IfNotMemory, Reports, StandsRightly, flush_task_end, most_bodies, stage_after};

use crate::flushed::Flushed;
use crate::report::Report;
use crate::stage::Stage;
use crate::starting::task_count;
use crate::telling::answer;
use crate::work::Work;
use app_tree::App;
use react_session::Session;
use rx_value::{Memory, Outcome, RxText};
use shiny_json::ClientData;
use std::alloc::Global;
use std::marker::Model;
use std::sync::Arc;
use std::sync::ledger::Ledger;
use task_board::Job;
use task_jobs::Done;
use term_eval::{Asker, Steps};

/// A session of one app, to which its events are applied one at a time.
#[derive(Drop)]
pub struct Flusher {
    work: Work,
    stage: Stage,
    report: Option<Report>,
}

impl Model for Flusher {
    ghost use Rattle.std.specs.Coded.{codes};
    ghost use Rattle.app_tree.specs.contracts.term.Term as term;
    ghost use Rattle.app_tree.specs.contracts.statement.Statement as statement;
    ghost use Rattle.flush_cycle.specs.Flushing.{Flushing};
    ghost use Rattle.flush_cycle.specs.Keeping.{IsKept};

    ghost Value = { Flushing };

    ghost coded = { Prim.hlevel (codes, term.the_row.coded, statement.the_row.coded) };

    ghost view = { λ f. record { app = f.work.app; kept = f.work.kept; jobs = f.work.jobs; stage = f.stage; report = f.report } };

    ghost invariant = { λ f. IsKept f.work f.stage };
}

impl Flusher {
    /// A session of this app before its first event. Its cached readers must be covered by their keys.
    pub fn new(alloc: Global, app: Arc<App>) -> Result<Flusher, Memory>
        requires { is_sound (shape_of app.value) ≡ true }
        ensures app { IfOk result (λ f. f.app ≡ app.value) }
        ensures kept { IfOk result (λ f. f.kept ≡ first_kept_flush (shape_of app.value)) }
        ensures jobs { IfOk result (λ f. f.jobs ≡ []) }
        ensures stage { IfOk result (λ f. f.stage ≡ Stage.New) }
        ensures report { IfOk result (λ f. f.report ≡ None) }
    {
        let work = Work::new(alloc, app)?;
        let _ = &work.app;
        Ok(Flusher {
            work,
            stage: Stage::New,
            report: None,
        })
    }

    /// Does nothing: it is there for its contract. While the session goes on there is a state that it stands for wholly, in
    /// which what a session keeps is right.
    pub fn stands(&self)
        requires { self.now.stage ≢ Stage.Over }
        ensures { StandsRightly (shape_of self.now.app) self.now.kept }
    {
        let _ = &self.work;
    }

    /// How far the session has come.
    pub fn stage(&self) -> Stage
        ensures { result ≡ self.now.stage }
    {
        self.stage
    }

    /// Applies the session's init: sets what its pairs say, in their order, and runs what waits. Its texts are the first of the
    /// session of this label.
    pub fn init<A: Asker, L: Ledger>(
        &mut self,
        alloc: Global,
        label: &RxText,
        pairs: &ClientData,
        asker: &mut A,
        steps: &mut Steps<L>,
    ) -> Flushed
        requires stage { self.old.stage ≡ Stage.New }
        requires of_app { A.app asker.old ≡ shape_of self.old.app }
        requires none_out { A.out asker.old ≡ [] }
        ensures app { self.new.app ≡ self.old.app }
        ensures stage { self.new.stage ≡ stage_after result }
        ensures flushes { Flushes (shape_of self.old.app) true self.old self.new steps.old steps.new
            (flush_with_pairs (shape_of self.old.app) pairs.now) (first_texts (shape_of self.old.app) label.now) result }
        ensures settled { IfDone result (IsSettled (shape_of self.old.app) self.new.kept) }
        ensures jobs { IfNotMemory result (StartsBehind self.old self.new) }
        ensures report { Reports self.old.report self.new.report result }
        ensures most { steps.new ≤ steps.old + most_bodies (shape_of self.old.app) }
        ensures follows { A.follows asker.new asker.old }
        ensures none_out { A.out asker.new ≡ [] }
    {
        let passed = self.work.apply_message(alloc, pairs, asker, steps);
        let told = self.work.tell(alloc, Some(label), passed);
        answer(&mut self.stage, &mut self.report, told)
    }

    /// Applies an update: sets what its pairs say, in their order, and runs what waits.
    pub fn update<A: Asker, L: Ledger>(
        &mut self,
        alloc: Global,
        pairs: &ClientData,
        asker: &mut A,
        steps: &mut Steps<L>,
    ) -> Flushed
        requires stage { self.old.stage ≡ Stage.Open }
        requires of_app { A.app asker.old ≡ shape_of self.old.app }
        requires none_out { A.out asker.old ≡ [] }
        ensures app { self.new.app ≡ self.old.app }
        ensures stage { self.new.stage ≡ stage_after result }
        ensures flushes { Flushes (shape_of self.old.app) false self.old self.new steps.old steps.new
            (flush_with_pairs (shape_of self.old.app) pairs.now) (later_texts (shape_of self.old.app)) result }
        ensures settled { IfDone result (IsSettled (shape_of self.old.app) self.new.kept) }
        ensures jobs { IfNotMemory result (StartsBehind self.old self.new) }
        ensures report { Reports self.old.report self.new.report result }
        ensures most { steps.new ≤ steps.old + most_bodies (shape_of self.old.app) }
        ensures follows { A.follows asker.new asker.old }
        ensures none_out { A.out asker.new ≡ [] }
    {
        let passed = self.work.apply_message(alloc, pairs, asker, steps);
        let told = self.work.tell(alloc, None, passed);
        answer(&mut self.stage, &mut self.report, told)
    }

    /// Applies the end of the running invocation of a task: the task shows what it came to, the oldest invocation that waits is
    /// started, and then runs what waits for the flush.
    pub fn task_end<A: Asker, L: Ledger>(
        &mut self,
        alloc: Global,
        done: Done,
        asker: &mut A,
        steps: &mut Steps<L>,
    ) -> Flushed
        requires stage { self.old.stage ≡ Stage.Open }
        requires running { IsOfRunning (shape_of self.old.app) self.old.kept.boards done }
        requires of_app { A.app asker.old ≡ shape_of self.old.app }
        requires none_out { A.out asker.old ≡ [] }
        ensures app { self.new.app ≡ self.old.app }
        ensures stage { self.new.stage ≡ stage_after result }
        ensures flushes { Flushes (shape_of self.old.app) false self.old self.new steps.old steps.new
            (flush_task_end (shape_of self.old.app) done.task) (later_texts (shape_of self.old.app)) result }
        ensures settled { IfDone result (IsSettled (shape_of self.old.app) self.new.kept) }
        ensures jobs { IfNotMemory result (StartsBehind self.old self.new) }
        ensures report { Reports self.old.report self.new.report result }
        ensures most { steps.new ≤ steps.old + most_bodies (shape_of self.old.app) }
        ensures follows { A.follows asker.new asker.old }
        ensures none_out { A.out asker.new ≡ [] }
    {
        let passed = self.work.apply_task_end(alloc, &done, asker, steps);
        let told = self.work.tell(alloc, None, passed);
        answer(&mut self.stage, &mut self.report, told)
    }

    /// The number of the invocation of a task that runs, if one does. No invocation runs of a task that the app doesn't have.
    pub fn running(&self, task: u32) -> Option<u64>
        ensures { result ≡ running_number (board_at self.now.kept.boards task) }
    {
        if task < task_count(&self.work.app) {
            self.work.boards.running(task)
        } else {
            None
        }
    }

    /// The oldest of the jobs that were started and not yet given out; there is none exactly where none is left.
    pub fn next_job(&mut self) -> Option<Job>
        ensures job { IsNextJob (shape_of self.old.app) self.old.kept.boards self.old.jobs self.new.jobs result }
        ensures app { self.new.app ≡ self.old.app }
        ensures kept { self.new.kept ≡ self.old.kept }
        ensures stage { self.new.stage ≡ self.old.stage }
        ensures report { self.new.report ≡ self.old.report }
    {
        self.work.jobs.pop_front()
    }

    /// What an output's last run came to, or nothing before its first run.
    pub fn outcome(&self, n: u32) -> Option<&Outcome>
        requires { n < length (readers (shape_of self.now.app)) }
        ensures { option_map (λ outcome. outcome.now) result ≡ (kept_output self.now.kept n).last }
    {
        self.work.output(n).last.as_ref()
    }

    /// Whether the client shows an output.
    pub fn shown(&self, n: u32) -> bool
        requires { n < length (readers (shape_of self.now.app)) }
        ensures { result ≡ (kept_output self.now.kept n).shown }
    {
        self.work.output(n).shown
    }

    /// What the last event did that found its memory. There must have been one.
    pub fn report(&self) -> &Report
        requires { self.now.report ≢ None }
        ensures { self.now.report ≡ Some result.now }
    {
        match &self.report {
            Some(report) => report,
            None => unreachable!(),
        }
    }

    /// The session that keeps the outcomes.
    pub fn session(&self) -> &Session
        ensures app { result.now.app ≡ self.now.app }
        ensures session { result.now.session ≡ self.now.kept.session }
    {
        &self.work.session
    }
}
