ghost use Rattle.std.specs.Prelude.{◌≡◌, Some, IfOk};
ghost use Rattle.app_check.specs.declared.error.LoadError.TheVariants.{Memory as memory};
ghost use Rattle.app_check.specs.Text.{refusal_text};

use crate::limits::FILE_LIMIT;
use rx_value::{Memory, RxText};
use std::alloc::{AllocError, AllocFailed, Global};
use std::error::Error;
use std::fmt;

/// Why a file gives no app. Places are byte offsets from 0; where the text ends too early, the place is
/// its length. A text is the name that is refused.
#[derive(Debug, Drop)]
pub enum LoadError {
    /// The file has more than [`FILE_LIMIT`] bytes.
    TooLong,
    /// A byte that no token can have there, or a number or a text that is beyond its limit, or a pair in a
    /// text that stands for nothing.
    BadByte(usize),
    /// The text that opens at this place has no end.
    OpenText(usize),
    /// The token at this place is none that the grammar allows there, or it is one more number or argument
    /// than there may be, or a budget out of range.
    Unexpected(usize),
    /// A term or a block at level 65 begins at this place, or a term's 65th operator stands there.
    TooDeep(usize),
    /// A second item, parameter of one task or variable of one fold of the same name; the place is the
    /// second name.
    NameTwice(RxText, usize),
    /// A name that is not declared in the sort that its place needs, or a variable that is not bound there.
    NameUnknown(RxText, usize),
    /// An `invoke` with another number of arguments than the task has; the place is the task's name.
    ArgCount(RxText, usize),
    /// A read or an `isolate` in a task's body; the place is its first token.
    ReadInTask(usize),
    /// An expression reads itself or a later expression; the place is the name that is read.
    ForwardRead(RxText, usize),
    /// An `isolate` in the last part of a fold; the place is that word.
    IsolateInFold(usize),
    /// A write in a body; the place is its first word.
    WriteInExpr(usize),
    /// A fold in the last part of a fold that stands in the last part of a fold; the place is that word.
    FoldTooDeep(usize),
    /// An item behind the first [`app_tree::ITEM_LIMIT`]; the place is its first word.
    TooManyItems(usize),
    /// A read of a cached reader's body that its keys don't cover, the first in the order of the text; the name and
    /// the place are the reader's, and the second text is the read.
    Uncovered(RxText, RxText, usize),
    /// An `isolate` or an event comes first in what a cached reader's body reads; the name and the place are the
    /// reader's.
    IsolateInCached(RxText, usize),
    /// Want of memory, which says nothing of the file.
    Memory,
}

impl fmt::Display for LoadError {
    ghost output = { λ e. Some (refusal_text e) };

    fn fmt<W: fmt::Write>(&self, f: &mut fmt::Formatter<W>) -> fmt::Result {
        match self {
            LoadError::TooLong => write!(f, "TooLong at {FILE_LIMIT}"),
            LoadError::BadByte(place) => write!(f, "BadByte at {place}"),
            LoadError::OpenText(place) => write!(f, "OpenText at {place}"),
            LoadError::Unexpected(place) => write!(f, "Unexpected at {place}"),
            LoadError::TooDeep(place) => write!(f, "TooDeep at {place}"),
            LoadError::NameTwice(name, place) => write!(
                f,
                "NameTwice {} at {place}",
                name.as_str()
            ),
            LoadError::NameUnknown(name, place) => {
                write!(f, "NameUnknown {} at {place}", name.as_str())
            }
            LoadError::ArgCount(name, place) => write!(f, "ArgCount {} at {place}", name.as_str()),
            LoadError::ReadInTask(place) => write!(f, "ReadInTask at {place}"),
            LoadError::ForwardRead(name, place) => {
                write!(f, "ForwardRead {} at {place}", name.as_str())
            }
            LoadError::IsolateInFold(place) => write!(f, "IsolateInFold at {place}"),
            LoadError::WriteInExpr(place) => write!(f, "WriteInExpr at {place}"),
            LoadError::FoldTooDeep(place) => write!(f, "FoldTooDeep at {place}"),
            LoadError::TooManyItems(place) => write!(f, "TooManyItems at {place}"),
            LoadError::Uncovered(name, read, place) => {
                write!(
                    f,
                    "Uncovered {} {} at {place}",
                    name.as_str(),
                    read.as_str()
                )
            }
            LoadError::IsolateInCached(name, place) => {
                write!(f, "IsolateInCached {} at {place}", name.as_str())
            }
            LoadError::Memory => write!(f, "out of memory"),
        }
    }
}

impl Error for LoadError {}

impl LoadError {
    /// What is told of the refusal: its name, the refused name and the read where there is one, and the place.
    pub fn note(&self, alloc: Global) -> Result<RxText, Memory>
        ensures { IfOk result (λ text. text ≡ refusal_text self.now) }
    {
        let text = self.to_string(alloc)?;
        RxText::from_str(alloc, text.as_str())
    }
}

impl From<Memory> for LoadError {
    ghost from_gives = { λ _ error. error ≡ memory };

    fn from(_: Memory) -> LoadError {
        LoadError::Memory
    }
}

impl From<AllocError> for LoadError {
    ghost from_gives = { λ _ error. error ≡ memory };

    fn from(_: AllocError) -> LoadError {
        LoadError::Memory
    }
}

impl<T: Drop> From<AllocFailed<T>> for LoadError {
    ghost from_gives = { λ _ error. error ≡ memory };

    fn from(_: AllocFailed<T>) -> LoadError {
        LoadError::Memory
    }
}
