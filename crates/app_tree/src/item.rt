ghost use Rattle.std.specs.Prelude.{◌≡◌};

use crate::statement::Block;
use crate::term::{Term, Terms};
use rx_value::{RxList, RxText, Value};

/// The sorts of what items declare.
#[derive(Clone, Copy, Debug, PartialEq, Eq)]
pub enum Sort {
    Input,
    Value,
    Task,
    Expression,
    Output,
    Observer,
}

/// How an event or an observer of an event treats its event term.
#[derive(Clone, Copy, Debug, PartialEq, Eq)]
pub struct Flags {
    /// The body is not run at the reader's first run.
    pub ignore_init: bool,
    /// The body is run also where the event term is NULL.
    pub allow_null: bool,
}

/// What `text` and `plot` have in common.
#[derive(Debug, Drop)]
pub struct Output {
    /// Of the readers that wait, that of the highest priority runs first.
    pub priority: i64,
    /// Whether it runs while the client hides it.
    pub while_hidden: bool,
    /// What its outcome is cached by; it is not cached where there is no key.
    pub keys: Terms,
    pub body: Term,
}

/// An item of an app.
#[derive(Debug, Drop)]
pub enum Item {
    /// A source that the client sets, with the value that it starts at.
    Input {
        name: RxText,
        start: Value,
    },
    /// A source that observers set, with the value that it starts at.
    Value {
        name: RxText,
        start: Value,
    },
    /// What an observer starts, and what ends later with the body's outcome on the arguments.
    Task {
        name: RxText,
        parameters: RxList<RxText>,
        body: Term,
    },
    /// An expression. It is not cached where there is no key.
    Reactive {
        name: RxText,
        keys: Terms,
        body: Term,
    },
    /// An expression whose body is evaluated anew at its event alone.
    Event {
        name: RxText,
        flags: Flags,
        event: Term,
        body: Term,
    },
    /// An output that shows its body's value as text.
    Text {
        name: RxText,
        output: Output,
    },
    /// An output that shows its body's value, the text of an SVG image, as a picture.
    Plot {
        name: RxText,
        output: Output,
    },
    /// An observer.
    Observe {
        name: RxText,
        priority: i64,
        block: Block,
    },
    /// An observer that acts at its event alone.
    On {
        name: RxText,
        priority: i64,
        flags: Flags,
        event: Term,
        block: Block,
    },
}

/// The items of an app, in the order of its text.
pub type Items = RxList<Item>;

impl Item {
    ghost use Rattle.app_tree.specs.View.{node_of};
    ghost use Rattle.app_tree.specs.Declarations.{sort_of_node};
    ghost use Rattle.app_tree.specs.Numbering.{name_of, is_input, is_value, is_task, is_expression, is_output, is_observer, is_reader};

    /// The item's name, of whatever kind it is.
    pub fn name(&self) -> &RxText
        ensures { result.now ≡ name_of (node_of self.now) }
    {
        match self {
            Item::Input { name, .. } => name,
            Item::Value { name, .. } => name,
            Item::Task { name, .. } => name,
            Item::Reactive { name, .. } => name,
            Item::Event { name, .. } => name,
            Item::Text { name, .. } => name,
            Item::Plot { name, .. } => name,
            Item::Observe { name, .. } => name,
            Item::On { name, .. } => name,
        }
    }

    /// The sort of what it declares.
    pub fn sort(&self) -> Sort
        ensures { result ≡ sort_of_node (node_of self.now) }
    {
        match self {
            Item::Input { .. } => Sort::Input,
            Item::Value { .. } => Sort::Value,
            Item::Task { .. } => Sort::Task,
            Item::Reactive { .. } => Sort::Expression,
            Item::Event { .. } => Sort::Expression,
            Item::Text { .. } => Sort::Output,
            Item::Plot { .. } => Sort::Output,
            Item::Observe { .. } => Sort::Observer,
            Item::On { .. } => Sort::Observer,
        }
    }

    pub fn is_input(&self) -> bool
        ensures { result ≡ is_input (node_of self.now) }
    {
        matches!(self, Item::Input { .. })
    }

    pub fn is_value(&self) -> bool
        ensures { result ≡ is_value (node_of self.now) }
    {
        matches!(self, Item::Value { .. })
    }

    pub fn is_task(&self) -> bool
        ensures { result ≡ is_task (node_of self.now) }
    {
        matches!(self, Item::Task { .. })
    }

    pub fn is_expression(&self) -> bool
        ensures { result ≡ is_expression (node_of self.now) }
    {
        matches!(self, Item::Reactive { .. } | Item::Event { .. })
    }

    pub fn is_output(&self) -> bool
        ensures { result ≡ is_output (node_of self.now) }
    {
        matches!(self, Item::Text { .. } | Item::Plot { .. })
    }

    pub fn is_observer(&self) -> bool
        ensures { result ≡ is_observer (node_of self.now) }
    {
        matches!(self, Item::Observe { .. } | Item::On { .. })
    }

    /// Whether it is run: an expression, an output or an observer.
    pub fn is_reader(&self) -> bool
        ensures { result ≡ is_reader (node_of self.now) }
    {
        self.is_expression() || self.is_output() || self.is_observer()
    }
}
