use crate::draft_term::{DraftTerm, DraftTerms, Name, Names};
use crate::item::Flags;
use rx_value::{RxList, Value};

/// A statement that changes something, as it is written.
#[derive(Debug, Drop)]
pub enum DraftAction {
    Set(Name, DraftTerm),
    Invoke(Name, DraftTerms),
    Update(Name, DraftTerm),
    Freeze(Name),
}

/// A statement that changes something, with the place of its first word.
#[derive(Debug, Drop)]
pub struct DraftWrite {
    pub place: usize,
    pub action: DraftAction,
}

/// The writes before a body's term, each of which is refused later by its place.
pub type DraftWrites = RxList<DraftWrite>;

/// The statements of a block as they are written.
pub type DraftBlock = sqlite_items::Items<DraftStatement>;

/// A statement as it is written.
#[cycle(draft_statement)]
#[derive(Debug, Drop)]
pub enum DraftStatement {
    Write(DraftWrite),
    Do(DraftTerm),
    If(DraftTerm, DraftBlock),
    IfElse(DraftTerm, DraftBlock, DraftBlock),
}

/// The inside of a body's braces.
#[derive(Debug, Drop)]
pub struct DraftBody {
    pub writes: DraftWrites,
    pub term: DraftTerm,
}

/// What `text` and `plot` have in common, as it is written.
#[derive(Debug, Drop)]
pub struct DraftOutput {
    pub priority: i64,
    pub while_hidden: bool,
    pub keys: DraftTerms,
    pub body: DraftBody,
}

/// What an item is, behind its name.
#[derive(Debug, Drop)]
pub enum DraftForm {
    Input(Value),
    Value(Value),
    Task {
        parameters: Names,
        body: DraftTerm,
    },
    Reactive {
        keys: DraftTerms,
        body: DraftBody,
    },
    Event {
        flags: Flags,
        event: DraftTerm,
        body: DraftBody,
    },
    Text(DraftOutput),
    Plot(DraftOutput),
    Observe {
        priority: i64,
        block: DraftBlock,
    },
    On {
        priority: i64,
        flags: Flags,
        event: DraftTerm,
        block: DraftBlock,
    },
}

/// An item as it is written, with the place of its first word.
#[derive(Debug, Drop)]
pub struct DraftItem {
    pub place: usize,
    pub name: Name,
    pub form: DraftForm,
}

/// The items of an app file, in the order of the text.
pub type DraftItems = RxList<DraftItem>;
