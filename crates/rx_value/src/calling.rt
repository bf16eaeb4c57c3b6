ghost use Rattle.std.specs.Prelude.{◌≡◌, ◌∷◌, [], length, IfOk, IsTrue};
ghost use Rattle.rx_value.specs.Functions.{takes_arguments, function_result, of_list, list_outcome, joined_numbers, text_outcome, joined_texts, number_found, item_of, sum_of, least_of, greatest_of, sequence_of, characters_of, as_number, is_null};
ghost use Rattle.rx_value.specs.Numbers.{number_list};
ghost use Rattle.rx_value.specs.Operators.{number_outcome};

use crate::arithmetic::number_outcome;
use crate::failure::Failure;
use crate::function::Fun;
use crate::limits::LIST_LIMIT;
use crate::memory::Memory;
use crate::numbers::{
    all_lists, all_numbers, count_between, greatest_of, least_of, length_of, number_at,
    numbers_from, sum_of,
};
use crate::operation::bool_outcome;
use crate::outcome::Outcome;
use crate::spelling::{character_count, joined_texts, number_of_text};
use crate::value::Value;
use std::alloc::Global;

fn joined_list(alloc: Global, values: &[Value]) -> Result<Outcome, Memory>
    ensures { IfOk result (λ outcome. outcome ≡ of_list list_outcome (joined_numbers values.now)) }
{
    if !all_lists(values) {
        return Failure::WrongKind.outcome(alloc);
    }
    match all_numbers(alloc, values)? {
        Some(list) => Ok(Outcome::Val(Value::Ints(list))),
        None => Failure::ListTooLong.outcome(alloc),
    }
}

fn joined_text(alloc: Global, values: &[Value]) -> Result<Outcome, Memory>
    ensures { IfOk result (λ outcome. outcome ≡ text_outcome (joined_texts values.now)) }
{
    match joined_texts(alloc, values)? {
        Some(text) => Ok(Outcome::Val(Value::Text(text))),
        None => Failure::TextTooLong.outcome(alloc),
    }
}

fn characters_of(alloc: Global, value: &Value) -> Result<Outcome, Memory>
    ensures { IfOk result (λ outcome. outcome ≡ characters_of value.now) }
{
    match value {
        Value::Text(text) => Ok(Outcome::Val(Value::Int(character_count(text.as_str())))),
        _ => Failure::WrongKind.outcome(alloc),
    }
}

/// The number that was looked for; None where a list has none there.
fn number_found(alloc: Global, number: Option<i64>) -> Result<Outcome, Memory>
    ensures { IfOk result (λ outcome. outcome ≡ number_found number) }
{
    match number {
        Some(number) => Ok(Outcome::Val(Value::Int(number))),
        None => Failure::IndexOutOfRange.outcome(alloc),
    }
}

fn item_of(alloc: Global, list: &Value, place: &Value) -> Result<Outcome, Memory>
    ensures { IfOk result (λ outcome. outcome ≡ item_of (number_list list.now) place.now) }
{
    let Some(numbers) = list.numbers() else {
        return Failure::WrongKind.outcome(alloc);
    };
    let Value::Int(place) = place else {
        return Failure::WrongKind.outcome(alloc);
    };
    number_found(alloc, number_at(numbers, *place))
}

fn sum(alloc: Global, list: &Value) -> Result<Outcome, Memory>
    ensures { IfOk result (λ outcome. outcome ≡ of_list (λ zs. number_outcome (sum_of zs)) (number_list list.now)) }
{
    match list.numbers() {
        Some(numbers) => number_outcome(alloc, sum_of(numbers)),
        None => Failure::WrongKind.outcome(alloc),
    }
}

fn least(alloc: Global, list: &Value) -> Result<Outcome, Memory>
    ensures { IfOk result (λ outcome. outcome ≡ of_list (λ zs. number_found (least_of zs)) (number_list list.now)) }
{
    match list.numbers() {
        Some(numbers) => number_found(alloc, least_of(numbers)),
        None => Failure::WrongKind.outcome(alloc),
    }
}

fn greatest(alloc: Global, list: &Value) -> Result<Outcome, Memory>
    ensures { IfOk result (λ outcome. outcome ≡ of_list (λ zs. number_found (greatest_of zs)) (number_list list.now)) }
{
    match list.numbers() {
        Some(numbers) => number_found(alloc, greatest_of(numbers)),
        None => Failure::WrongKind.outcome(alloc),
    }
}

fn sequence_of(alloc: Global, first: &Value, last: &Value) -> Result<Outcome, Memory>
    ensures { IfOk result (λ outcome. outcome ≡ sequence_of first.now last.now) }
{
    let (Value::Int(first), Value::Int(last)) = (first, last) else {
        return Failure::WrongKind.outcome(alloc);
    };
    let count = count_between(*first, *last);
    if count > LIST_LIMIT as u128 {
        return Failure::ListTooLong.outcome(alloc);
    }
    Ok(Outcome::Val(Value::Ints(numbers_from(alloc, *first, count as usize)?)))
}

fn as_number(value: &Value) -> Value
    ensures { result ≡ as_number value.now }
{
    match value {
        Value::Int(number) => Value::Int(*number),
        Value::Text(text) => match number_of_text(text.as_str()) {
            Some(number) => Value::Int(number),
            None => Value::Null,
        },
        Value::Null | Value::Bool(_) | Value::Ints(_) => Value::Null,
    }
}

fn is_null(value: &Value) -> bool
    ensures { result ≡ is_null value.now }
{
    matches!(value, Value::Null)
}

/// The one argument.
fn only(arguments: &[Value]) -> &Value
    requires { length arguments.now ≡ 1 }
    ensures { arguments.now ≡ result.now ∷ [] }
{
    &arguments[0]
}

/// The two arguments.
fn pair(arguments: &[Value]) -> (&Value, &Value)
    requires { length arguments.now ≡ 2 }
    ensures { arguments.now ≡ result.0.now ∷ result.1.now ∷ [] }
{
    (&arguments[0], &arguments[1])
}

/// What a function gives for arguments of the number that it takes: a value, or the failure that it
/// meets.
pub fn call(alloc: Global, function: Fun, arguments: &[Value]) -> Result<Outcome, Memory>
    requires { IsTrue (takes_arguments function (length arguments.now)) }
    ensures { IfOk result (λ outcome. outcome ≡ function_result function arguments.now) }
{
    match function {
        Fun::C => joined_list(alloc, arguments),
        Fun::Paste0 => joined_text(alloc, arguments),
        Fun::Length => Ok(Outcome::Val(Value::Int(length_of(only(arguments))))),
        Fun::Nchar => characters_of(alloc, only(arguments)),
        Fun::Item => {
            let (list, place) = pair(arguments);
            item_of(alloc, list, place)
        }
        Fun::Sum => sum(alloc, only(arguments)),
        Fun::Min => least(alloc, only(arguments)),
        Fun::Max => greatest(alloc, only(arguments)),
        Fun::Seq => {
            let (first, last) = pair(arguments);
            sequence_of(alloc, first, last)
        }
        Fun::IsNull => Ok(bool_outcome(is_null(only(arguments)))),
        Fun::AsInt => Ok(Outcome::Val(as_number(only(arguments)))),
    }
}
