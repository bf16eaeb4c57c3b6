use rx_value::Values;

/// An invocation that is to be run now.
#[derive(Debug, Drop)]
pub struct Job {
    /// The number of the task among the app's tasks, from 0.
    pub task: u32,
    /// The number of the invocation among the task's, from 1.
    pub number: u64,
    /// The values of the task's parameters.
    pub args: Values,
}

/// An invocation that was started and has not ended.
#[derive(Debug, Drop)]
pub struct Invocation {
    /// Its number among the task's, from 1.
    pub number: u64,
    pub args: Values,
}

/// What comes of an invocation.
#[derive(Debug, Drop)]
pub enum Invoked {
    /// The task was not running, and runs this now.
    Started(Job),
    /// The task is running, and the arguments wait.
    Queued,
    /// The task is running and 1,000 wait: nothing has changed, and the arguments are lost.
    QueueFull,
}

/// What comes of the end of an invocation.
#[derive(Debug, Drop)]
pub enum Ended {
    /// The oldest arguments that waited run now.
    Next(Job),
    /// None waited, and the task no longer runs.
    Quiet,
    /// Not the invocation of this number is running, but the one of this number or none. Nothing has
    /// changed.
    Stale { running: Option<u64> },
}
