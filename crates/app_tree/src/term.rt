use rx_value::{BinOp, Fun, Plot, RxText, UnOp};
use sqlite_items::Boxed;

/// What a term reads outside of its own text.
#[derive(Clone, Copy, Debug, PartialEq, Eq)]
pub enum Read {
    /// The input of this source number.
    Input(u32),
    /// The value of this source number.
    Value(u32),
    /// The expression of this reader number.
    Expr(u32),
    /// Whether the task of this source number was started, runs or has ended, as a text.
    Status(u32),
    /// What the last invocation of the task of this source number came to.
    Result(u32),
    /// The width in pixels at which the client shows the output of this reader number.
    Width(u32),
    /// The height in pixels at which the client shows the output of this reader number.
    Height(u32),
}

/// An operator between two terms.
#[derive(Clone, Copy, Debug, PartialEq, Eq)]
pub enum Operator {
    /// The second operand is evaluated only where the first is false.
    Or,
    /// The second operand is evaluated only where the first is true.
    And,
    /// Both operands are evaluated, the left one first.
    Strict(BinOp),
}

/// A function that is called by its name.
#[derive(Clone, Copy, Debug, PartialEq, Eq)]
pub enum Function {
    Fun(Fun),
    Plot(Plot),
}

/// A list of terms.
pub type Terms = sqlite_items::Items<Term>;

/// A term of an item's text.
///
/// Variables are numbered from 0, from the outside to the inside: a task's parameters in their order,
/// then for each `fold` around the accumulator and the element.
#[cycle(term)]
#[derive(Debug, Drop)]
pub enum Term {
    Null,
    Bool(bool),
    Int(i64),
    Text(RxText),
    /// A term in parentheses.
    Group(Boxed<Term>),
    Get(Read),
    Variable(usize),
    /// The term's value without a dependency on what it reads. The number is that of the site: those of a
    /// reader are numbered from 0 in the order of the text.
    Isolate(usize, Boxed<Term>),
    /// A failure with the term's text.
    Stop(Boxed<Term>),
    /// The term's value where it is truthy. Else the evaluation stops silently, and with `cancelOutput`
    /// what was shown stays.
    Require {
        term: Boxed<Term>,
        cancels: bool,
    },
    /// The accumulator begins as the start, and becomes the body's value for each number of the list in
    /// turn. The names are those of the two variables, for printing.
    Fold {
        list: Boxed<Term>,
        start: Boxed<Term>,
        accumulator: RxText,
        element: RxText,
        body: Boxed<Term>,
    },
    Unary(UnOp, Boxed<Term>),
    Binary(Operator, Boxed<Term>, Boxed<Term>),
    If {
        condition: Boxed<Term>,
        chosen: Boxed<Term>,
        otherwise: Boxed<Term>,
    },
    Call(Function, Terms),
}
