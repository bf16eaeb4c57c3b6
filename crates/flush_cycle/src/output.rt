ghost use Rattle.std.specs.Prelude.{◌≡◌};
ghost use Rattle.app_tree.specs.View.{node_of};
ghost use Rattle.session_model.specs.Flush.{priority_of};
ghost use Rattle.flush_cycle.specs.inner.Roles.{role_of, is_run_in};

use app_tree::Item;
use rx_value::Outcome;

/// When a flush runs a reader that isn't alive.
#[derive(Clone, Copy, Debug, PartialEq, Eq)]
pub enum Role {
    /// An expression, which is run where it is read.
    Never,
    /// An observer, or an output that runs while it is hidden.
    Always,
    /// Any other output.
    WhileShown,
}

/// What is kept of a reader for the flush.
#[derive(Debug, Drop)]
pub struct OutputState {
    pub role: Role,
    /// Whether the client shows it.
    pub shown: bool,
    /// What its last run came to.
    pub last: Option<Outcome>,
}

impl Role {
    /// Whether a flush runs a reader that isn't alive, where the client shows it or not.
    pub fn is_run(self, shown: bool) -> bool
        ensures { result ≡ is_run_in self shown }
    {
        match self {
            Role::Never => false,
            Role::Always => true,
            Role::WhileShown => shown,
        }
    }
}

impl OutputState {
    /// Whether a flush runs it where it isn't alive.
    pub fn is_wanted(&self) -> bool
        ensures { result ≡ is_run_in self.now.role self.now.shown }
    {
        self.role.is_run(self.shown)
    }
}

/// When a flush runs this item.
pub fn role_of(item: &Item) -> Role
    ensures { result ≡ role_of (node_of item.now) }
{
    match item {
        Item::Text { output, .. } | Item::Plot { output, .. } => {
            if output.while_hidden {
                Role::Always
            } else {
                Role::WhileShown
            }
        }
        Item::Observe { .. } | Item::On { .. } => Role::Always,
        _ => Role::Never,
    }
}

/// Of the readers that wait that of the highest priority runs first. An expression never waits.
pub fn priority_of(item: &Item) -> i64
    ensures { result ≡ priority_of (node_of item.now) }
{
    match item {
        Item::Text { output, .. } | Item::Plot { output, .. } => output.priority,
        Item::Observe { priority, .. } => *priority,
        Item::On { priority, .. } => *priority,
        _ => 0,
    }
}
