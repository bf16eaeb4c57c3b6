//! The limits of an app.

/// How many items an app has at most.
pub const ITEM_LIMIT: usize = 500;

/// How many levels the terms and the blocks of an item have at most.
pub const LEVEL_LIMIT: u32 = 64;

/// How many operators a term has at most outside of its brackets.
pub const OPERATOR_LIMIT: u32 = 64;

/// In how many last parts of folds a fold stands at most, counted with its own.
pub const FOLD_LIMIT: usize = 2;

/// The greatest flush budget: how many runs one flush makes at most.
pub const BUDGET_LIMIT: u32 = 1_000_000;

/// The flush budget of an app whose text tells none.
pub const BUDGET_DEFAULT: u32 = 1_000;
