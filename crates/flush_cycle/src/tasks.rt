//! The invocations of tasks, and their ends.

ghost use Rattle.std.specs.Prelude.{◌≡◌, ◌<◌, IfOk, OnOk, OnErr, filter, length};
ghost use Rattle.app_tree.specs.View.{shape_of};
ghost use Rattle.app_tree.specs.Numbering.{is_task};
ghost use Rattle.session_model.specs.Observing.{invoke_task};
ghost use Rattle.session_model.specs.Tasks.{ended_view, see_task};
ghost use Rattle.task_board.specs.Board.{board_at, invocation_result, end_result};
ghost use Rattle.flush_cycle.specs.Jobs.{IsStarted, IsOfRunning};
ghost use Rattle.flush_cycle.specs.inner.Tasking.{with_job, IsInvoked, IsEnded};
ghost use Rattle.flush_cycle.specs.inner.Parts.{HasArguments, IsBoardOf};
ghost use Rattle.flush_cycle.specs.Working.{IsReady};
ghost use Rattle.flush_cycle.specs.inner.Acting.{Does, Moved, EndsTask};

use crate::statements::DONE;
use crate::work::Work;
use rx_value::{Memory, Outcome, RxText, SourceValue, TaskView, Values};
use std::alloc::Global;
use task_board::{Ended, Invoked, Job};
use task_jobs::Done;

/// What a task shows of an invocation that ended.
fn ended_view(alloc: Global, outcome: &Outcome) -> Result<TaskView, Memory>
    ensures { IfOk result (λ view. view ≡ ended_view outcome.now) }
{
    match outcome {
        Outcome::Val(value) => Ok(TaskView::Success(value.copy(alloc)?)),
        failure => Ok(TaskView::Error(failure.copy(alloc)?)),
    }
}

impl Work {
    /// Lets a task show this.
    fn see_task(&mut self, task: u32, view: TaskView)
        requires task { task < length (filter is_task (shape_of self.old.app).items) }
        requires ready { IsReady self.old }
        ensures { Moved (see_task (shape_of self.old.app) task view) self.old self.new }
    {
        self.write(self.first_task + task, SourceValue::Task(view));
    }

    /// Keeps the job of an invocation that runs now, until it is given out.
    fn take_job(&mut self, job: Job) -> Result<(), Memory>
        requires { IsStarted (shape_of self.old.app) self.old.kept.boards job }
        ensures ok { OnOk result (self.new ≡ with_job job self.old) }
        ensures err { OnErr result (self.new ≡ self.old) }
    {
        match self.jobs.push_back(job) {
            Ok(()) => Ok(()),
            Err(_) => Err(Memory),
        }
    }

    /// Lets a task's board know of an invocation.
    fn begin_invocation(
        &mut self,
        alloc: Global,
        task: u32,
        args: Values,
    ) -> Result<Invoked, Memory>
        requires { HasArguments (shape_of self.old.app) task args }
        ensures known { task < length self.old.kept.boards }
        ensures answer { IfOk result (λ answer. answer ≡ (invocation_result task args (board_at self.old.kept.boards task)).answer) }
        ensures ok { OnOk result (IsInvoked self.old task args self.new) }
        ensures err { OnErr result (self.new ≡ self.old) }
    {
        self.boards.invoke(alloc, task, args)
    }

    /// Starts a task, or lets the invocation wait where it runs already.
    pub fn start(&mut self, alloc: Global, task: u32, args: Values) -> Result<Outcome, Memory>
        requires task { HasArguments (shape_of self.old.app) task args }
        requires ready { IsReady self.old }
        ensures { Does (invoke_task (shape_of self.old.app) task args) self.old self.new result }
    {
        match self.begin_invocation(alloc, task, args)? {
            Invoked::Started(job) => {
                self.take_job(job)?;
                self.see_task(task, TaskView::Running);
                Ok(DONE)
            }
            Invoked::Queued => Ok(DONE),
            Invoked::QueueFull => Ok(Outcome::Fail(RxText::from_str(alloc, "task queue is full")?)),
        }
    }

    /// Lets a task's board know that the invocation that runs has ended.
    fn end_invocation(&mut self, alloc: Global, done: &Done) -> Result<Ended, Memory>
        requires { IsOfRunning (shape_of self.old.app) self.old.kept.boards done.now }
        ensures known { done.now.task < length self.old.kept.boards }
        ensures task { done.now.task < length (filter is_task (shape_of self.old.app).items) }
        ensures board { IsBoardOf (shape_of self.old.app) done.now.task (board_at self.old.kept.boards done.now.task) }
        ensures answer { IfOk result (λ answer. answer ≡ (end_result done.now.task done.now.number (board_at self.old.kept.boards done.now.task)).answer) }
        ensures ok { OnOk result (IsEnded self.old done.now.task done.now.number self.new) }
        ensures err { OnErr result (self.new ≡ self.old) }
    {
        self.boards.end(alloc, done.task(), done.number())
    }

    /// Ends the invocation that runs, and starts the oldest that waits.
    pub fn end_task(&mut self, alloc: Global, done: &Done) -> Result<(), Memory>
        requires running { IsOfRunning (shape_of self.old.app) self.old.kept.boards done.now }
        requires ready { IsReady self.old }
        ensures app { self.new.app ≡ self.old.app }
        ensures ended { OnOk result (EndsTask done.now.task self.old self.new) }
    {
        let view = ended_view(alloc, done.outcome())?;
        match self.end_invocation(alloc, done)? {
            Ended::Next(job) => {
                self.take_job(job)?;
                self.see_task(done.task(), view);
                self.see_task(done.task(), TaskView::Running);
                Ok(())
            }
            Ended::Quiet => {
                self.see_task(done.task(), view);
                Ok(())
            }
            Ended::Stale { running: _ } => unreachable!(),
        }
    }
}
