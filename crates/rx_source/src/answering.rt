ghost use Rattle.std.specs.Prelude.{◌≡◌, IfOk};
ghost use Rattle.app_tree.specs.Current.{value_at, plain_outcome, status_text, status_outcome, outcome_of_view, result_outcome};

use rx_value::{Memory, Outcome, RxText, SourceValue, TaskView, Value};
use std::alloc::Global;

fn plain_outcome(alloc: Global, value: &SourceValue) -> Result<Outcome, Memory>
    ensures { IfOk result (λ outcome. outcome ≡ plain_outcome value.now) }
{
    match value {
        SourceValue::Plain(value) => Ok(Outcome::Val(value.copy(alloc)?)),
        SourceValue::Frozen(_) | SourceValue::Task(_) => Ok(Outcome::Stop),
    }
}

fn status_text(view: &TaskView) -> &'static str
    ensures { result.now ≡ status_text view.now }
{
    match view {
        TaskView::Initial => "initial",
        TaskView::Running => "running",
        TaskView::Success(_) => "success",
        TaskView::Error(_) => "error",
    }
}

fn status_outcome(alloc: Global, value: &SourceValue) -> Result<Outcome, Memory>
    ensures { IfOk result (λ outcome. outcome ≡ status_outcome value.now) }
{
    match value {
        SourceValue::Task(view) => {
            let text = RxText::from_str(alloc, status_text(view))?;
            Ok(Outcome::Val(Value::Text(text)))
        }
        SourceValue::Plain(_) => Ok(Outcome::Stop),
        SourceValue::Frozen(_) => Ok(Outcome::Stop),
    }
}

fn outcome_of_view(alloc: Global, view: &TaskView) -> Result<Outcome, Memory>
    ensures { IfOk result (λ outcome. outcome ≡ outcome_of_view view.now) }
{
    match view {
        TaskView::Initial => Ok(Outcome::Stop),
        TaskView::Running => Ok(Outcome::Running),
        TaskView::Success(value) => Ok(Outcome::Val(value.copy(alloc)?)),
        TaskView::Error(outcome) => outcome.copy(alloc),
    }
}

fn result_outcome(alloc: Global, value: &SourceValue) -> Result<Outcome, Memory>
    ensures { IfOk result (λ outcome. outcome ≡ result_outcome value.now) }
{
    match value {
        SourceValue::Task(view) => outcome_of_view(alloc, view),
        SourceValue::Plain(_) => Ok(Outcome::Stop),
        SourceValue::Frozen(_) => Ok(Outcome::Stop),
    }
}

/// What a read of the source of this number is answered, which is no task. Beyond the sources it is
/// NULL.
pub fn plain_at(alloc: Global, values: &[SourceValue], source: u32) -> Result<Outcome, Memory>
    ensures { IfOk result (λ outcome. outcome ≡ plain_outcome (value_at values.now source)) }
{
    match values.get(source as usize) {
        Some(value) => plain_outcome(alloc, value),
        None => Ok(Outcome::Val(Value::Null)),
    }
}

/// Whether the task of this source number was started, runs or has ended.
pub fn status_at(alloc: Global, values: &[SourceValue], source: u32) -> Result<Outcome, Memory>
    ensures { IfOk result (λ outcome. outcome ≡ status_outcome (value_at values.now source)) }
{
    match values.get(source as usize) {
        Some(value) => status_outcome(alloc, value),
        None => Ok(Outcome::Stop),
    }
}

/// What the last invocation of the task of this source number came to.
pub fn result_at(alloc: Global, values: &[SourceValue], source: u32) -> Result<Outcome, Memory>
    ensures { IfOk result (λ outcome. outcome ≡ result_outcome (value_at values.now source)) }
{
    match values.get(source as usize) {
        Some(value) => result_outcome(alloc, value),
        None => Ok(Outcome::Stop),
    }
}
