//! Counting and finding among the items of an app, by their sorts.

ghost use Rattle.std.specs.Prelude.{◌≡◌, ◌<◌, ◌≤◌, ◌*◌, IfSome, length, map, option_map, slice_get};
ghost use Rattle.app_tree.specs.Numbering.{declared_sources, number_from};
ghost use Rattle.app_tree.specs.declared.limits.TheConstants.{ITEM_LIMIT};
ghost use Rattle.app_tree.specs.Declarations.{node_declarations, number_at};
ghost use Rattle.app_tree.specs.Sorts.{is_of, items_of};
ghost use Rattle.app_tree.specs.View.{node_of};

use crate::item::{Item, Sort};
use crate::sorts::Sorts;

/// How many of the items are of these sorts.
pub fn count_of(items: &[Item], sorts: Sorts) -> usize
    ensures value { result ≡ length (items_of sorts (map node_of items.now)) }
    ensures most { result ≤ length items.now }
{
    let mut found = 0;
    for item in items {
        if sorts.have(item) {
            found += 1;
        }
    }
    found
}

/// The item of this number among those of these sorts.
pub fn item_of(items: &[Item], sorts: Sorts, number: usize) -> Option<&Item>
    ensures { option_map (λ i. node_of i.now) result ≡
        slice_get (items_of sorts (map node_of items.now)) number }
{
    let mut left = number;
    for item in items {
        if sorts.have(item) {
            if left == 0 {
                return Some(item);
            }
            left -= 1;
        }
    }
    None
}

/// How many items of the sorts that are counted stand before the first one of this name that is of the
/// sorts that are sought.
pub fn number_of(items: &[Item], counted: Sorts, sought: Sorts, name: &str) -> Option<usize>
    ensures value { result ≡ number_from (is_of counted) (is_of sought) 0 name.now (map node_of items.now) }
    ensures within { IfSome result (λ number. number < length items.now) }
{
    let mut number = 0;
    for item in items {
        if sought.have(item) && name == item.name().as_str() {
            return Some(number);
        }
        if counted.have(item) {
            number += 1;
        }
    }
    None
}

/// The item that is the source of this number, which is an input, a value or a task.
#[tactic(auto, using(crate::proofs::SortLaws::source_is_input, crate::proofs::SortLaws::source_is_value, crate::proofs::SortLaws::source_is_task))]
pub fn source_of(items: &[Item], number: usize) -> Option<&Item>
    ensures { option_map (λ i. node_of i.now) result ≡
        slice_get (declared_sources (map node_of items.now)) number }
{
    let inputs = count_of(items, Sorts::Inputs);
    if number < inputs {
        return item_of(items, Sorts::Inputs, number);
    }
    let values = count_of(items, Sorts::Values);
    if number - inputs < values {
        return item_of(items, Sorts::Values, number - inputs);
    }
    item_of(items, Sorts::Tasks, number - inputs - values)
}

/// The number of the item at this place, which is of this sort: the source number of an input, a value
/// or a task, the reader number of an expression, an output or an observer.
#[tactic(auto, using(crate::proofs::NumberLaws::input_number_at, crate::proofs::NumberLaws::value_number_at, crate::proofs::NumberLaws::task_number_at, crate::proofs::NumberLaws::expression_number_at, crate::proofs::NumberLaws::output_number_at, crate::proofs::NumberLaws::observer_number_at))]
pub fn number_at(items: &[Item], place: usize, sort: Sort) -> usize
    requires few { length items.now ≤ ITEM_LIMIT }
    requires within { place ≤ length items.now }
    ensures value { result ≡ number_at (node_declarations (map node_of items.now)) place sort }
    ensures most { result ≤ 3 * ITEM_LIMIT }
{
    let before = &items[..place];
    match sort {
        Sort::Input => count_of(before, Sorts::Inputs),
        Sort::Value => count_of(items, Sorts::Inputs) + count_of(before, Sorts::Values),
        Sort::Task => {
            count_of(items, Sorts::Inputs)
                + (count_of(items, Sorts::Values) + count_of(before, Sorts::Tasks))
        }
        Sort::Expression => count_of(before, Sorts::Readers),
        Sort::Output => count_of(before, Sorts::Readers),
        Sort::Observer => count_of(before, Sorts::Readers),
    }
}
