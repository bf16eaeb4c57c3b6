ghost use Rattle.std.specs.Prelude.{ℕ, []};
ghost use Rattle.app_tree.specs.Tree.{Shape};

use std::marker::Brand;

/// Names a shared cache in the types of what belongs to it, since a value behind a lock or in a queue
/// is known by its type alone. It has no functions; what it means is for proofs.
pub trait CacheName {
    ghost app: { Shape };

    ghost entries: { ℕ };

    ghost bytes: { ℕ };
}

impl CacheName for Brand {
    ghost use Rattle.app_tree.specs.declared.limits.TheConstants.{BUDGET_DEFAULT};

    ghost app = { record { budget = BUDGET_DEFAULT; items = [] } };

    ghost entries = { 1 };

    ghost bytes = { 0 };
}
