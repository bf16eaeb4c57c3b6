//! Tasks: their invocations and their ends.

ghost use Rattle.worked_examples.specs.TaskCases.{QueuedInvocation, EndOfATaskThatDoesNotRun, FullTaskQueue, TaskQueueThatHoldsAll};

/// A task runs one invocation after the other, and its end runs the readers of its state.
#[tactic(auto, using(crate::proofs::TaskComputed::queued_invocation))]
pub fn queued_invocation()
    ensures { QueuedInvocation }
{}

/// The end of a task that doesn't run ends the replay.
#[tactic(auto, using(crate::proofs::TaskComputed::end_of_a_task_that_does_not_run))]
pub fn end_of_a_task_that_does_not_run()
    ensures { EndOfATaskThatDoesNotRun }
{}

/// Of 1,002 invocations in one run one is started and 1,000 wait. The last fails, which ends the session.
#[tactic(auto, using(crate::proofs::TaskComputed::full_task_queue))]
pub fn full_task_queue()
    ensures { FullTaskQueue }
{}

/// Of 1,001 invocations none fails.
#[tactic(auto, using(crate::proofs::TaskComputed::task_queue_that_holds_all))]
pub fn task_queue_that_holds_all()
    ensures { TaskQueueThatHoldsAll }
{}
