use crate::term::{Function, Operator};
use rx_value::{RxList, RxText, UnOp};
use sqlite_items::Boxed;

/// A name where it is written. Places are byte offsets from the file's start.
#[derive(Debug, Drop)]
pub struct Name {
    pub text: RxText,
    pub place: usize,
}

/// Names where they are written.
pub type Names = RxList<Name>;

/// The forms in which a term reads what is declared.
#[derive(Clone, Copy, Debug, PartialEq, Eq)]
pub enum ReadForm {
    /// `input$NAME`
    Input,
    /// `NAME()`, of a value or an expression.
    Named,
    /// `status(NAME)`
    Status,
    /// `result(NAME)`
    Result,
    /// `width(NAME)`
    Width,
    /// `height(NAME)`
    Height,
}

/// A list of terms as they are written.
pub type DraftTerms = sqlite_items::Items<DraftTerm>;

/// A term as it is written, with names in place of numbers, and with the places that refusals name.
#[cycle(draft_term)]
#[derive(Debug, Drop)]
pub enum DraftTerm {
    Null,
    Bool(bool),
    Int(i64),
    Text(RxText),
    Group(Boxed<DraftTerm>),
    /// A read, with the place of its first token.
    Read {
        form: ReadForm,
        place: usize,
        name: Name,
    },
    /// A name alone, which stands for a variable.
    Variable(Name),
    /// `isolate`, with the place of that word.
    Isolate(usize, Boxed<DraftTerm>),
    Stop(Boxed<DraftTerm>),
    Require {
        term: Boxed<DraftTerm>,
        cancels: bool,
    },
    /// `fold`, with the place of that word.
    Fold {
        place: usize,
        list: Boxed<DraftTerm>,
        start: Boxed<DraftTerm>,
        accumulator: Name,
        element: Name,
        body: Boxed<DraftTerm>,
    },
    Unary(UnOp, Boxed<DraftTerm>),
    Binary(Operator, Boxed<DraftTerm>, Boxed<DraftTerm>),
    If {
        condition: Boxed<DraftTerm>,
        chosen: Boxed<DraftTerm>,
        otherwise: Boxed<DraftTerm>,
    },
    Call(Function, DraftTerms),
}
