use crate::term::{Term, Terms};

/// The statements of an observer or of a block, in their order.
pub type Block = sqlite_items::Items<Statement>;

/// A statement of an observer.
#[cycle(statement)]
#[derive(Debug, Drop)]
pub enum Statement {
    /// Sets the value of this source number.
    Set(u32, Term),
    /// Starts the task of this source number, or queues the invocation.
    Invoke(u32, Terms),
    /// Tells the client to set the input of this source number.
    Update(u32, Term),
    /// Lets reads of the input of this source number stop silently until it thaws.
    Freeze(u32),
    /// Evaluates the term for its failure alone.
    Do(Term),
    If(Term, Block),
    IfElse(Term, Block, Block),
}
