/// How many invocations of a task may wait.
pub const QUEUE_LIMIT: usize = 1_000;
