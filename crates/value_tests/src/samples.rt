//! What the tables of the tests are made of: values, outcomes, keys and texts, from words.

use rx_value::{Key, Memory, Outcome, RxInts, RxText, Value, Values, show};
use std::alloc::Global;

/// A text.
pub fn text_of(alloc: Global, text: &str) -> Result<Value, Memory> {
    Ok(Value::Text(RxText::from_str(alloc, text)?))
}

/// A list of these numbers.
pub fn list_of(alloc: Global, numbers: &[i64]) -> Result<Value, Memory> {
    let mut list = RxInts::new(alloc);
    for number in numbers {
        list.push(*number)?;
    }
    Ok(Value::Ints(list))
}

/// A list of the numbers that stand in the words.
pub fn numbers_of(alloc: Global, words: &str) -> Result<Value, Memory> {
    let mut list = RxInts::new(alloc);
    for word in words.split_whitespace() {
        list.push(word.parse::<i64>().unwrap_or(0))?;
    }
    Ok(Value::Ints(list))
}

/// A list of so many numbers, from the first on.
pub fn numbers_from(alloc: Global, first: i64, count: u32) -> Result<Value, Memory> {
    let mut list = RxInts::new(alloc);
    for number in 0..count {
        list.push(first.saturating_add(i64::from(number)))?;
    }
    Ok(Value::Ints(list))
}

/// The value that some words stand for: `NULL`, `TRUE`, `FALSE`, a number, a list behind a `c`, or
/// else a text, which may have a quote before it.
pub fn value_of(alloc: Global, words: &str) -> Result<Value, Memory> {
    match words {
        "NULL" => return Ok(Value::Null),
        "TRUE" => return Ok(Value::Bool(true)),
        "FALSE" => return Ok(Value::Bool(false)),
        _ => {}
    }
    if let Some(numbers) = words.strip_prefix('c') {
        return numbers_of(alloc, numbers);
    }
    match words.parse::<i64>() {
        Ok(number) => Ok(Value::Int(number)),
        Err(_) => text_of(alloc, words.strip_prefix('\'').unwrap_or(words)),
    }
}

/// The words that an outcome is shown by: a failure behind `! `.
pub fn words_of(alloc: Global, outcome: &Outcome) -> Result<RxText, Memory> {
    match outcome {
        Outcome::Val(Value::Null) => RxText::from_str(alloc, "NULL"),
        Outcome::Val(value) => show(alloc, value),
        Outcome::Fail(failure) => {
            let mut text = RxText::from_str(alloc, "! ")?;
            text.push_str(failure.as_str())?;
            Ok(text)
        }
        Outcome::Stop | Outcome::Cancel | Outcome::Running => RxText::from_str(alloc, "no value"),
    }
}

/// This value alone.
pub fn one_value(alloc: Global, value: Value) -> Result<Values, Memory> {
    let mut values = Values::new(alloc);
    values.push(value)?;
    Ok(values)
}

/// The key of a reader by one value.
pub fn key_of(alloc: Global, node: u32, part: Value) -> Result<Key, Memory> {
    let parts = one_value(alloc, part)?;
    Ok(Key { node, parts })
}
