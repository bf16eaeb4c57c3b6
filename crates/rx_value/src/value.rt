ghost use Rattle.std.specs.Prelude.{◌≡◌, ◌↔◌, IfOk, IsTrue, MatchOption, None, Some};
ghost use Rattle.rx_value.specs.Value.{value_eq, ints_eq};
ghost use Rattle.rx_value.specs.Numbers.{number_list};
ghost use Rattle.rx_value.specs.Truth.{is_truthy};

use crate::list::RxInts;
use crate::memory::Memory;
use crate::text::RxText;
use std::alloc::Global;

/// What an app computes with.
#[derive(Debug, Drop)]
pub enum Value {
    Null,
    Bool(bool),
    Int(i64),
    Text(RxText),
    Ints(RxInts),
}

fn same_numbers(xs: &[i64], ys: &[i64]) -> bool
    ensures { result ≡ ints_eq xs.now ys.now }
{
    xs == ys
}

impl Value {
    /// An equal value.
    pub fn copy(&self, alloc: Global) -> Result<Value, Memory>
        ensures { IfOk result (λ value. value ≡ self.now) }
    {
        match self {
            Value::Null => Ok(Value::Null),
            Value::Bool(truth) => Ok(Value::Bool(*truth)),
            Value::Int(number) => Ok(Value::Int(*number)),
            Value::Text(text) => Ok(Value::Text(text.copy(alloc)?)),
            Value::Ints(numbers) => Ok(Value::Ints(numbers.copy(alloc)?)),
        }
    }

    /// Whether both are of one kind and have the same content.
    #[tactic(auto, using(crate::proofs::Sameness::same_values))]
    pub fn same(&self, other: &Value) -> bool
        ensures test { result ≡ value_eq self.now other.now }
        ensures equal { IsTrue result ↔ (self.now ≡ other.now) }
    {
        match (self, other) {
            (Value::Null, Value::Null) => true,
            (Value::Bool(a), Value::Bool(b)) => *a == *b,
            (Value::Int(a), Value::Int(b)) => *a == *b,
            (Value::Text(a), Value::Text(b)) => a.same(b),
            (Value::Ints(a), Value::Ints(b)) => same_numbers(a.as_slice(), b.as_slice()),
            _ => false,
        }
    }

    /// Whether `req` lets the value pass: all but NULL, FALSE, the empty text and the empty list.
    pub fn is_truthy(&self) -> bool
        ensures { result ≡ is_truthy self.now }
    {
        match self {
            Value::Null => false,
            Value::Bool(truth) => *truth,
            Value::Int(_) => true,
            Value::Text(text) => !text.as_str().is_empty(),
            Value::Ints(numbers) => !numbers.as_slice().is_empty(),
        }
    }

    /// The numbers that the value gives where a list is asked for: a list its numbers, NULL none, a
    /// number itself. No other kind is a list.
    pub fn numbers(&self) -> Option<&[i64]>
        ensures { MatchOption result (number_list self.now ≡ None) (λ numbers. number_list self.now ≡ Some numbers.now) }
    {
        match self {
            Value::Null => Some(&[]),
            Value::Int(number) => Some(std::slice::from_ref(number)),
            Value::Ints(numbers) => Some(numbers.as_slice()),
            Value::Bool(_) | Value::Text(_) => None,
        }
    }
}
