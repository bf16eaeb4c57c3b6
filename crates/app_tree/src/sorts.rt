ghost use Rattle.std.specs.Prelude.{◌≡◌};
ghost use Rattle.app_tree.specs.Sorts.{sorts_of, is_of};
ghost use Rattle.app_tree.specs.View.{node_of};

use crate::item::{Item, Sort};

/// Sorts of declarations that belong together.
#[derive(Clone, Copy, Debug, PartialEq, Eq)]
pub enum Sorts {
    Inputs,
    Values,
    Tasks,
    /// Values and expressions, which are read by name and brackets.
    Named,
    Outputs,
    /// Expressions, outputs and observers.
    Readers,
    /// All of them.
    Any,
}

impl Sorts {
    /// Whether this sort is one of them.
    pub fn contain(self, sort: Sort) -> bool
        ensures { result ≡ sorts_of self sort }
    {
        match self {
            Sorts::Inputs => matches!(sort, Sort::Input),
            Sorts::Values => matches!(sort, Sort::Value),
            Sorts::Tasks => matches!(sort, Sort::Task),
            Sorts::Named => matches!(sort, Sort::Value | Sort::Expression),
            Sorts::Outputs => matches!(sort, Sort::Output),
            Sorts::Readers => matches!(sort, Sort::Expression | Sort::Output | Sort::Observer),
            Sorts::Any => true,
        }
    }

    /// Whether the item's sort is one of them.
    pub fn have(self, item: &Item) -> bool
        ensures { result ≡ is_of self (node_of item.now) }
    {
        self.contain(item.sort())
    }
}
