//! What the cases of the tests are made of: values and outcomes from words, and the names of readers.

use app_tree::App;
use rx_value::{Key, Memory, Outcome, RxText, Value, Values};
use std::alloc::Global;

/// The value that some words stand for: `NULL`, `TRUE`, `FALSE`, a number, or else a text, which may
/// have a quote before it.
pub fn value_of(alloc: Global, words: &str) -> Result<Value, Memory> {
    match words {
        "NULL" => return Ok(Value::Null),
        "TRUE" => return Ok(Value::Bool(true)),
        "FALSE" => return Ok(Value::Bool(false)),
        _ => {}
    }
    match words.parse::<i64>() {
        Ok(number) => Ok(Value::Int(number)),
        Err(_) => Ok(Value::Text(RxText::from_str(
            alloc,
            words.strip_prefix('\'').unwrap_or(words),
        )?)),
    }
}

/// The outcome that some words stand for: a failure's text behind `! `, `(stop)`, `(cancel)`, or else
/// a value.
pub fn outcome_of(alloc: Global, words: &str) -> Result<Outcome, Memory> {
    match words {
        "(stop)" => return Ok(Outcome::Stop),
        "(cancel)" => return Ok(Outcome::Cancel),
        _ => {}
    }
    match words.strip_prefix("! ") {
        Some(failure) => Ok(Outcome::Fail(RxText::from_str(alloc, failure)?)),
        None => Ok(Outcome::Val(value_of(alloc, words)?)),
    }
}

/// Puts a name behind others, with a blank before it where others are.
fn add_name(names: &mut String, name: &str) -> Result<(), Memory> {
    if !names.as_str().is_empty() {
        names.push_str(" ")?;
    }
    names.push_str(name)?;
    Ok(())
}

/// The names of these readers.
pub fn names_of(alloc: Global, app: &App, readers: &[u32]) -> Result<String, Memory> {
    let mut names = String::new(alloc);
    for n in readers {
        add_name(&mut names, app.reader_name(*n))?;
    }
    Ok(names)
}

/// The key of a reader by one value.
pub fn key_of(alloc: Global, node: u32, words: &str) -> Result<Key, Memory> {
    let mut parts = Values::new(alloc);
    parts.push(value_of(alloc, words)?)?;
    Ok(Key { node, parts })
}
