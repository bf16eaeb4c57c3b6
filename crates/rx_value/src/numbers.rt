ghost use Rattle.std.specs.Prelude.{◌≡◌, ◌≤◌, ◌<◌, ◌++◌, ◌+ℤ◌, pos, fold, length, IfOk, OnOk, MatchOption, slice_get};
ghost use Rattle.std.specs.Prelude.{◌≤ℤ◌, ◌^◌};
ghost use Rattle.std.specs.Int.{int_min, int_max};
ghost use Rattle.std.specs.List.{list_all};
ghost use Rattle.rx_value.specs.Numbers.{number_list};
ghost use Rattle.rx_value.specs.Functions.{is_list, all_numbers, length_of, number_at, sum_of, least_of, greatest_of, numbers_from, count_between};

use crate::limits::LIST_LIMIT;
use crate::list::RxInts;
use crate::memory::Memory;
use crate::value::Value;
use std::alloc::Global;

/// Whether each of the values is a list, or is taken as one.
pub fn all_lists(values: &[Value]) -> bool
    ensures { result ≡ list_all is_list values.now }
{
    values.iter().all(|value| value.numbers().is_some())
}

/// Puts numbers at the end of a list.
fn append(numbers: &[i64], list: &mut RxInts) -> Result<(), Memory>
    ensures { OnOk result (list.new ≡ list.old ++ numbers.now) }
{
    for number in numbers {
        list.push(*number)?;
    }
    Ok(())
}

/// The numbers of all values, one list behind the other; None where there are more than a list may
/// have.
pub fn all_numbers(alloc: Global, values: &[Value]) -> Result<Option<RxInts>, Memory>
    ensures { IfOk result (λ list.
        MatchOption list (LIST_LIMIT < length (all_numbers values.now))
        (λ zs. (zs ≡ all_numbers values.now) × (length zs ≤ LIST_LIMIT))) }
{
    let mut list = RxInts::new(alloc);
    for value in values {
        let numbers = value.numbers().unwrap_or(&[]);
        if numbers.len() > LIST_LIMIT - list.len() {
            return Ok(None);
        }
        append(numbers, &mut list)?;
    }
    Ok(Some(list))
}

/// 0 for NULL, the count of a list's numbers, 1 for every other value.
pub fn length_of(value: &Value) -> i64
    ensures { result ≡ pos (length_of value.now) }
{
    match value {
        Value::Null => 0,
        Value::Ints(numbers) => numbers.as_slice().len() as i64,
        Value::Bool(_) | Value::Int(_) | Value::Text(_) => 1,
    }
}

/// The number at a place counted from 1.
pub fn number_at(numbers: &[i64], place: i64) -> Option<i64>
    ensures { result ≡ number_at numbers.now place }
{
    if place < 1 {
        return None;
    }
    numbers.get((place - 1) as usize).copied()
}

/// The whole sum. A list has less than 2^60 numbers in memory, so 128 bits hold it.
pub fn sum_of(numbers: &[i64]) -> i128
    ensures { result ≡ sum_of numbers.now }
{
    let mut sum = 0i128;
    for number in numbers {
        sum += i128::from(*number);
    }
    sum
}

/// The least number; None where there is none.
pub fn least_of(numbers: &[i64]) -> Option<i64>
    ensures { result ≡ least_of numbers.now }
{
    let [first, later @ ..] = numbers else {
        return None;
    };
    let mut least = *first;
    for number in later {
        least = least.min(*number);
    }
    Some(least)
}

/// The greatest number; None where there is none.
pub fn greatest_of(numbers: &[i64]) -> Option<i64>
    ensures { result ≡ greatest_of numbers.now }
{
    let [first, later @ ..] = numbers else {
        return None;
    };
    let mut greatest = *first;
    for number in later {
        greatest = greatest.max(*number);
    }
    Some(greatest)
}

/// How many numbers there are from the first to the last.
pub fn count_between(first: i64, last: i64) -> u128
    ensures { result ≡ count_between first last }
{
    let count = i128::from(last) + 1 - i128::from(first);
    if count < 0 { 0 } else { count as u128 }
}

/// So many numbers, the first and each next one.
pub fn numbers_from(alloc: Global, first: i64, count: usize) -> Result<RxInts, Memory>
    requires { (first +ℤ pos count) ≤ℤ pos (2 ^ 63) }
    ensures { IfOk result (λ zs. zs ≡ numbers_from first count) }
{
    let mut list = RxInts::new(alloc);
    for step in 0..count {
        let number = i128::from(first) + step as i128;
        list.push(number as i64)?;
    }
    Ok(list)
}
