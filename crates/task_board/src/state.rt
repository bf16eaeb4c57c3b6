ghost use Rattle.std.specs.Prelude.{◌≡◌, IfOk, OnOk, OnErr, Some, None, IsSome, ◌<◌, ◌≤◌, length, ◌≢◌, ◌+◌, []};
ghost use Rattle.task_board.specs.Board.{idle, next_job, with_next, queue_result, invocation_result, next_result, end_result, running_number};

use crate::job::{Ended, Invocation, Invoked, Job};
use crate::limits::QUEUE_LIMIT;
use rx_value::{Memory, Values};
use std::alloc::Global;
use std::collections::VecDeque;
use std::marker::Model;

/// One task.
#[derive(Drop)]
pub struct TaskState {
    /// The number of the last invocation that was started, or 0.
    last_number: u64,
    running: Option<Invocation>,
    /// The arguments that wait, oldest first.
    queued: VecDeque<Values>,
}

impl Model for TaskState {
    ghost use Rattle.task_board.specs.Board.{TaskBoard};

    ghost Value = { TaskBoard };

    ghost use Rattle.task_board.specs.inner.Kept.{IsKept};

    ghost view = { λ a. record { last_number = a.last_number; running = a.running; queued = a.queued.items } };

    ghost invariant = { IsKept };
}

impl TaskState {
    pub fn new(alloc: Global) -> TaskState
        ensures { result ≡ idle }
    {
        TaskState {
            last_number: 0,
            running: None,
            queued: VecDeque::new(alloc),
        }
    }

    pub fn running(&self) -> Option<u64>
        ensures { result ≡ running_number self.now }
    {
        match &self.running {
            Some(invocation) => Some(invocation.number),
            None => None,
        }
    }

    /// The number of the next invocation. A number that does not fit 64 bits finds no room in a job,
    /// which is want of memory like any other; that many invocations can't be made.
    fn next_number(&self) -> Result<u64, Memory>
        ensures { IfOk result (λ number. number ≡ self.now.last_number + 1) }
    {
        match self.last_number.checked_add(1) {
            Some(number) => Ok(number),
            None => Err(Memory),
        }
    }

    fn start(&mut self, alloc: Global, task: u32, args: Values) -> Result<Job, Memory>
        ensures job { IfOk result (λ job. job ≡ next_job task args self.old) }
        ensures ok { OnOk result (self.new ≡ with_next args self.old.queued self.old) }
        ensures err { OnErr result (self.new ≡ self.old) }
    {
        let number = self.next_number()?;
        let kept = args.copy_values(alloc)?;
        self.last_number = number;
        self.running = Some(Invocation { number, args: kept });
        Ok(Job { task, number, args })
    }

    fn enqueue(&mut self, args: Values) -> Result<Invoked, Memory>
        requires { IsSome self.old.running }
        ensures answer { IfOk result (λ answer. answer ≡ (queue_result args self.old).answer) }
        ensures ok { OnOk result (self.new ≡ (queue_result args self.old).board) }
        ensures err { OnErr result (self.new ≡ self.old) }
        ensures memory { OnErr result (length self.old.queued < QUEUE_LIMIT) }
    {
        if self.queued.len() >= QUEUE_LIMIT {
            return Ok(Invoked::QueueFull);
        }
        match self.queued.push_back(args) {
            Ok(()) => Ok(Invoked::Queued),
            Err(_) => Err(Memory),
        }
    }

    pub fn invoke(&mut self, alloc: Global, task: u32, args: Values) -> Result<Invoked, Memory>
        ensures answer { IfOk result (λ answer. answer ≡ (invocation_result task args self.old).answer) }
        ensures ok { OnOk result (self.new ≡ (invocation_result task args self.old).board) }
        ensures err { OnErr result (self.new ≡ self.old) }
        ensures memory { OnErr result (length self.old.queued < QUEUE_LIMIT) }
        ensures few { length self.old.queued ≤ QUEUE_LIMIT }
        ensures quiet { self.old.running ≡ None → self.old.queued ≡ [] }
    {
        if self.running.is_some() {
            return self.enqueue(args);
        }
        let job = self.start(alloc, task, args)?;
        Ok(Invoked::Started(job))
    }

    fn start_next(&mut self, alloc: Global, task: u32) -> Result<Ended, Memory>
        ensures answer { IfOk result (λ answer. answer ≡ (next_result self.old.queued task self.old).answer) }
        ensures ok { OnOk result (self.new ≡ (next_result self.old.queued task self.old).board) }
        ensures err { OnErr result (self.new ≡ self.old) }
        ensures memory { OnErr result (self.old.queued ≢ []) }
    {
        let number = self.next_number();
        let Some(oldest) = self.queued.front() else {
            self.running = None;
            return Ok(Ended::Quiet);
        };
        let number = number?;
        let args = oldest.copy_values(alloc)?;
        let kept = self.queued.pop_front().unwrap();
        self.last_number = number;
        self.running = Some(Invocation { number, args: kept });
        Ok(Ended::Next(Job { task, number, args }))
    }

    pub fn end(&mut self, alloc: Global, task: u32, number: u64) -> Result<Ended, Memory>
        ensures answer { IfOk result (λ answer. answer ≡ (end_result task number self.old).answer) }
        ensures ok { OnOk result (self.new ≡ (end_result task number self.old).board) }
        ensures err { OnErr result (self.new ≡ self.old) }
        ensures memory { OnErr result ((running_number self.old ≡ Some number) × (self.old.queued ≢ [])) }
    {
        let running = self.running();
        if running != Some(number) {
            return Ok(Ended::Stale { running });
        }
        self.start_next(alloc, task)
    }
}
