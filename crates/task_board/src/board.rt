ghost use Rattle.std.specs.Prelude.{◌≡◌, ◌<◌, IfOk, OnOk, OnErr, Some, None, ◌≤◌, ◌≢◌, [], length, slice_set, replicate};
ghost use Rattle.task_board.specs.Board.{idle, board_at, invocation_result, end_result, running_number};

use crate::job::{Ended, Invoked};
use crate::limits::QUEUE_LIMIT;
use crate::state::TaskState;
use rx_value::{Memory, Values};
use std::alloc::Global;
use std::marker::Model;

/// The tasks of a session. Contracts see for each its last number, the invocation that runs, and the
/// arguments that wait.
#[derive(Drop)]
pub struct Board {
    tasks: Vec<TaskState>,
}

impl Model for Board {
    ghost use Rattle.std.specs.Prelude.{List};
    ghost use Rattle.task_board.specs.Board.{TaskBoard};

    ghost Value = { List TaskBoard };

    ghost view = { λ a. a.tasks.items };
}

impl Board {
    /// So many tasks, none of them ever invoked.
    pub fn new(alloc: Global, tasks: u32) -> Result<Board, Memory>
        ensures { IfOk result (λ b. b ≡ replicate tasks idle) }
    {
        let mut states = Vec::new(alloc);
        for _task in 0..tasks {
            if states.push(TaskState::new(alloc)).is_err() {
                return Err(Memory);
            }
        }
        Ok(Board { tasks: states })
    }

    /// Starts a task that isn't running, with the number above its last, from 1. Else the arguments
    /// wait, unless 1,000 do. Without memory the board stays as it was, and the arguments are lost.
    pub fn invoke(&mut self, alloc: Global, task: u32, args: Values) -> Result<Invoked, Memory>
        requires { task < length self.old }
        ensures answer { IfOk result (λ answer. answer ≡ (invocation_result task args (board_at self.old task)).answer) }
        ensures ok { OnOk result
            (self.new ≡ slice_set self.old task (invocation_result task args (board_at self.old task)).board) }
        ensures err { OnErr result (self.new ≡ self.old) }
        ensures memory { OnErr result (length (board_at self.old task).queued < QUEUE_LIMIT) }
        ensures few { length (board_at self.old task).queued ≤ QUEUE_LIMIT }
        ensures quiet { (board_at self.old task).running ≡ None → (board_at self.old task).queued ≡ [] }
    {
        self.tasks[task as usize].invoke(alloc, task, args)
    }

    /// Ends the invocation of this number, and starts the oldest that waits. Another number than the
    /// running one is stale. Only starting takes memory, and without it the board stays as it was:
    /// the invocation is still running.
    pub fn end(&mut self, alloc: Global, task: u32, number: u64) -> Result<Ended, Memory>
        requires { task < length self.old }
        ensures answer { IfOk result (λ answer. answer ≡ (end_result task number (board_at self.old task)).answer) }
        ensures ok { OnOk result
            (self.new ≡ slice_set self.old task (end_result task number (board_at self.old task)).board) }
        ensures err { OnErr result (self.new ≡ self.old) }
        ensures memory { OnErr result
            ((running_number (board_at self.old task) ≡ Some number) × ((board_at self.old task).queued ≢ [])) }
    {
        self.tasks[task as usize].end(alloc, task, number)
    }

    /// The number of the invocation that runs, if one does.
    pub fn running(&self, task: u32) -> Option<u64>
        requires { task < length self.now }
        ensures { result ≡ running_number (board_at self.now task) }
    {
        self.tasks[task as usize].running()
    }
}
