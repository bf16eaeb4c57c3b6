//! Weights bound the length of keys and the size of a cache. They take no memory.
ghost use Rattle.std.specs.Prelude.{◌≡◌, ◌+◌, length};
ghost use Rattle.rx_value.specs.Weight.{saturated_weight, value_weight, key_weight, outcome_weight};

use crate::key::Key;
use crate::outcome::Outcome;
use crate::text::RxText;
use crate::value::Value;

fn text_weight(text: &RxText) -> u64
    ensures { result ≡ saturated_weight (5 + length text.now) }
{
    5u64.saturating_add(text.len() as u64)
}

impl Value {
    /// What the value counts in a key or in a cache: 1 for NULL, 2 for a truth value, 9 for a number, 5
    /// and its bytes for a text, 5 and 8 for each number for a list; at most 18,446,744,073,709,551,615.
    pub fn weight(&self) -> u64
        ensures { result ≡ value_weight self.now }
    {
        match self {
            Value::Null => 1,
            Value::Bool(_) => 2,
            Value::Int(_) => 9,
            Value::Text(text) => text_weight(text),
            Value::Ints(numbers) => 8u64.saturating_mul(numbers.len() as u64).saturating_add(5),
        }
    }
}

impl Key {
    /// 4 and the weights of its values, at most 18,446,744,073,709,551,615.
    pub fn weight(&self) -> u64
        ensures { result ≡ key_weight self.now }
    {
        let mut total: u64 = 4;
        for part in self.parts.as_slice() {
            total = total.saturating_add(part.weight());
        }
        total
    }
}

impl Outcome {
    /// A value's own weight; 5 and the bytes of its text for a failure; 1 for any other outcome.
    pub fn weight(&self) -> u64
        ensures { result ≡ outcome_weight self.now }
    {
        match self {
            Outcome::Val(value) => value.weight(),
            Outcome::Fail(text) => text_weight(text),
            Outcome::Stop => 1,
            Outcome::Cancel => 1,
            Outcome::Running => 1,
        }
    }
}
