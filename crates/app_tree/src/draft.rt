ghost use Rattle.std.specs.Prelude.{◌≡◌, true};
ghost use Rattle.app_tree.specs.DraftView.{draft_shape_of};
ghost use Rattle.app_tree.specs.Fits.{fits};

use crate::draft_item::DraftItems;
use std::marker::Model;

/// An app file as it is written: its flush budget and its items, with names in place of numbers. It is
/// within the limits of app files, its terms are grouped as a text can group them, and its parameters and
/// variables are named by words that aren't reserved. Its items may have any names.
#[derive(Debug, Drop)]
pub struct Draft {
    budget: u32,
    items: DraftItems,
}

impl Model for Draft {
    ghost use Rattle.std.specs.Coded.{codes};
    ghost use Rattle.std.specs.Prelude.{◌≡◌, true};
    ghost use Rattle.app_tree.specs.Held.{HeldDraft};
    ghost use Rattle.app_tree.specs.DraftView.{draft_shape_of};
    ghost use Rattle.app_tree.specs.Fits.{fits};
    ghost use Rattle.app_tree.specs.contracts.draft_term.DraftTerm as term;
    ghost use Rattle.app_tree.specs.contracts.draft_item.DraftStatement as statement;

    ghost Value = { HeldDraft };

    ghost coded = { Prim.hlevel (codes, term.the_row.coded, statement.the_row.coded) };

    ghost view = { λ d. record { budget = d.budget; items = d.items } };

    ghost invariant = { λ d. fits (draft_shape_of (record { budget = d.budget; items = d.items })) ≡ true };
}

impl Draft {
    /// A draft of this flush budget and these items.
    pub fn new(budget: u32, items: DraftItems) -> Draft
        requires { fits (draft_shape_of (record { budget = budget; items = items })) ≡ true }
        ensures budget { result.budget ≡ budget }
        ensures items { result.items ≡ items }
    {
        Draft { budget, items }
    }

    /// The most runs of observers and outputs that one flush makes.
    pub fn budget(&self) -> u32
        ensures { result ≡ self.now.budget }
    {
        self.budget
    }

    /// The items, in the order of the text.
    pub fn items(&self) -> &DraftItems
        ensures items { result.now ≡ self.now.items }
        ensures fits { fits (draft_shape_of self.now) ≡ true }
    {
        &self.items
    }
}
