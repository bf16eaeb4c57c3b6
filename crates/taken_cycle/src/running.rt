ghost use Rattle.std.specs.Prelude.{◌≡◌, [], ◌∷◌, ◌++◌, IfOk, OnOk};
ghost use Rattle.app_tree.specs.Current.{value_at, plain_outcome};
ghost use Rattle.taken_cycle.specs.inner.Passed.{shown_outcome, ran_reader};

use rx_value::{Memory, Outcome, RxList, SourceValue, Value};
use session_model::{Dependencies, ReaderState};
use std::alloc::Global;

fn plain_outcome(alloc: Global, value: &SourceValue) -> Result<Outcome, Memory>
    ensures { IfOk result (λ outcome. outcome ≡ plain_outcome value.now) }
{
    match value {
        SourceValue::Plain(value) => Ok(Outcome::Val(value.copy(alloc)?)),
        SourceValue::Frozen(_) => Ok(Outcome::Stop),
        SourceValue::Task(_) => Ok(Outcome::Stop),
    }
}

/// What an output comes to that shows the input of this source number.
fn shown_outcome(alloc: Global, values: &[SourceValue], source: u32) -> Result<Outcome, Memory>
    ensures { IfOk result (λ outcome. outcome ≡ shown_outcome source values.now) }
{
    match values.get(source as usize) {
        Some(value) => plain_outcome(alloc, value),
        None => Ok(Outcome::Val(Value::Null)),
    }
}

/// Runs an output that shows the input of this source number, and answers its outcome: the output
/// depends from now on on that source, and its outcome is its last. Without memory the reader is as it
/// was.
pub fn run(
    alloc: Global,
    source: u32,
    values: &[SourceValue],
    reader: &mut ReaderState,
) -> Result<Outcome, Memory>
    ensures ran { OnOk result (reader.new ≡ ran_reader source values.now reader.old) }
    ensures outcome { IfOk result (λ outcome. outcome ≡ shown_outcome source values.now) }
{
    let mut sources = RxList::new(alloc);
    sources.push(source)?;
    let outcome = shown_outcome(alloc, values, source)?;
    let last = outcome.copy(alloc)?;
    reader.dependencies = Some(Dependencies {
        sources,
        changed: false,
    });
    reader.isolated = RxList::new(alloc);
    reader.last = Some(last);
    Ok(outcome)
}
