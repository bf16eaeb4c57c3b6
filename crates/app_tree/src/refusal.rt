use rx_value::RxText;

/// What an app file that is of the grammar may be refused for, each at a place. At one place the one that stands
/// first here is the refusal.
#[derive(Clone, Copy, Debug, PartialEq, Eq)]
pub enum Fault {
    /// A 501st item; the place is its first word.
    TooManyItems,
    /// A second item, parameter of one task or variable of one fold of the same name; the place is the second name.
    NameTwice,
    /// A name that is not declared in the sort that its place needs, or a variable that is not bound there.
    NameUnknown,
    /// An `invoke` with another number of arguments than the task has; the place is the task's name.
    ArgCount,
    /// A read or an `isolate` in a task's body; the place is its first token.
    ReadInTask,
    /// An expression reads itself or a later expression; the place is the name that is read.
    ForwardRead,
    /// An `isolate` in the last part of a fold; the place is that word.
    IsolateInFold,
    /// A write in a body; the place is its first word.
    WriteInExpr,
    /// A fold in the last part of a fold that stands in the last part of a fold; the place is that word.
    FoldTooDeep,
}

/// A check that a draft fails: at which place, and which name is refused, where it is a name.
#[derive(Debug, Drop)]
pub struct Refusal {
    /// A byte offset from the file's start.
    pub place: usize,
    pub fault: Fault,
    /// Empty where no name is refused.
    pub name: RxText,
}
