ghost use Rattle.std.specs.Prelude.{◌≡◌, ◌↔◌, IsTrue};
ghost use Rattle.rx_value.specs.Value.{view_eq, source_eq};

use crate::outcome::Outcome;
use crate::value::Value;

/// What is seen of a task from outside.
#[derive(Debug, Drop)]
pub enum TaskView {
    /// It was never started.
    Initial,
    Running,
    /// Its last invocation ended with this value.
    Success(Value),
    /// Its last invocation ended otherwise.
    Error(Outcome),
}

/// The current value of a source.
#[derive(Debug, Drop)]
pub enum SourceValue {
    /// The value of an input, of a `value` item, or of an output's width or height.
    Plain(Value),
    /// The view of a task.
    Task(TaskView),
    /// An input that is frozen, with the value that it has when it thaws.
    Frozen(Value),
}

impl TaskView {
    /// Whether both are of one kind and have the same content.
    #[tactic(auto, using(crate::proofs::Sameness::same_views))]
    pub fn same(&self, other: &TaskView) -> bool
        ensures test { result ≡ view_eq self.now other.now }
        ensures equal { IsTrue result ↔ (self.now ≡ other.now) }
    {
        match (self, other) {
            (TaskView::Initial, TaskView::Initial) => true,
            (TaskView::Running, TaskView::Running) => true,
            (TaskView::Success(a), TaskView::Success(b)) => a.same(b),
            (TaskView::Error(a), TaskView::Error(b)) => a.same(b),
            _ => false,
        }
    }
}

impl SourceValue {
    /// Whether both are of one kind and have the same content.
    #[tactic(auto, using(crate::proofs::Sameness::same_sources))]
    pub fn same(&self, other: &SourceValue) -> bool
        ensures test { result ≡ source_eq self.now other.now }
        ensures equal { IsTrue result ↔ (self.now ≡ other.now) }
    {
        match (self, other) {
            (SourceValue::Plain(a), SourceValue::Plain(b)) => a.same(b),
            (SourceValue::Task(a), SourceValue::Task(b)) => a.same(b),
            (SourceValue::Frozen(a), SourceValue::Frozen(b)) => a.same(b),
            _ => false,
        }
    }
}
