ghost use Rattle.std.specs.Prelude.{◌≡◌, ◌++◌, IfOk, OnOk, map};
ghost use Rattle.app_tree.specs.View.{node_of};
ghost use Rattle.app_tree.specs.Numbering.{declared_value, declared_sources, unknown_sizes, starting_values};
ghost use Rattle.app_tree.specs.Sorts.{items_of};

use app_tree::{Item, Sorts};
use rx_value::{Memory, SourceValue, TaskView, Value};
use std::alloc::Global;

fn declared_value(alloc: Global, item: &Item) -> Result<SourceValue, Memory>
    ensures { IfOk result (λ value. value ≡ declared_value (node_of item.now)) }
{
    match item {
        Item::Input { start, .. } | Item::Value { start, .. } => {
            Ok(SourceValue::Plain(start.copy(alloc)?))
        }
        Item::Task { .. } => Ok(SourceValue::Task(TaskView::Initial)),
        _ => Ok(SourceValue::Plain(Value::Null)),
    }
}

fn push_sort(
    alloc: Global,
    items: &[Item],
    sorts: Sorts,
    values: &mut Vec<SourceValue>,
) -> Result<(), Memory>
    ensures { OnOk result (values.new.items ≡ values.old.items ++ map declared_value (items_of sorts (map node_of items.now))) }
{
    for item in items {
        if sorts.have(item) {
            let value = declared_value(alloc, item)?;
            if values.push(value).is_err() {
                return Err(Memory);
            }
        }
    }
    Ok(())
}

/// The values of the inputs, the values and the tasks, at which they start.
#[tactic(auto, using(crate::proofs::StartingOrder::declared_are))]
pub fn declared_values(alloc: Global, items: &[Item]) -> Result<Vec<SourceValue>, Memory>
    ensures { IfOk result (λ values. values.items ≡ map declared_value (declared_sources (map node_of items.now))) }
{
    let mut values = Vec::new(alloc);
    push_sort(alloc, items, Sorts::Inputs, &mut values)?;
    push_sort(alloc, items, Sorts::Values, &mut values)?;
    push_sort(alloc, items, Sorts::Tasks, &mut values)?;
    Ok(values)
}

/// The widths or the heights of the outputs, which the client has not told yet.
pub fn push_sizes(items: &[Item], values: &mut Vec<SourceValue>) -> Result<(), Memory>
    ensures { OnOk result (values.new.items ≡ values.old.items ++ unknown_sizes (map node_of items.now)) }
{
    for item in items {
        if item.is_output() {
            if values.push(SourceValue::Plain(Value::Null)).is_err() {
                return Err(Memory);
            }
        }
    }
    Ok(())
}

/// The values at which the sources of these items start, by source number.
pub fn starting_values(alloc: Global, items: &[Item]) -> Result<Vec<SourceValue>, Memory>
    ensures { IfOk result (λ values. values.items ≡ starting_values (map node_of items.now)) }
{
    let mut values = declared_values(alloc, items)?;
    push_sizes(items, &mut values)?;
    push_sizes(items, &mut values)?;
    Ok(values)
}
