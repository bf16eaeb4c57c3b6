ghost use Rattle.std.specs.Prelude.{◌≡◌, ◌↔◌, IfOk, IsTrue, Bool};
ghost use Rattle.std.specs.Cmp.{decided, partial_equiv_from_equiv};
ghost use Rattle.std.specs.Hash.{same_Alike};
ghost use Rattle.rx_value.specs.Value.{value_eq, values_eq, key_eq};
ghost use Rattle.rx_value.specs.Keys.{value_writes, key_writes, value_eq-Decides, key_eq-Decides};

use crate::list::Values;
use crate::memory::Memory;
use crate::value::Value;
use std::alloc::Global;
use std::hash::{Hash, Hasher};

/// What a cached outcome is looked up by: the number of the reader, and the values of its key terms
/// in their order.
#[derive(Debug, Drop)]
pub struct Key {
    pub node: u32,
    pub parts: Values,
}

fn same_values(xs: &[Value], ys: &[Value]) -> bool
    ensures { result ≡ values_eq xs.now ys.now }
{
    xs == ys
}

impl Key {
    /// An equal key.
    pub fn copy(&self, alloc: Global) -> Result<Key, Memory>
        ensures { IfOk result (λ key. key ≡ self.now) }
    {
        Ok(Key {
            node: self.node,
            parts: self.parts.copy_values(alloc)?,
        })
    }

    /// Whether both have the same number and the same values.
    #[tactic(auto, using(crate::proofs::Sameness::same_keys))]
    pub fn same(&self, other: &Key) -> bool
        ensures test { result ≡ key_eq self.now other.now }
        ensures equal { IsTrue result ↔ (self.now ≡ other.now) }
    {
        self.node == other.node && same_values(self.parts.as_slice(), other.parts.as_slice())
    }
}

impl PartialEq for Value {
    ghost eq = { value_eq };

    ghost laws = { partial_equiv_from_equiv (decided value_eq value_eq-Decides) };

    fn eq(&self, other: &Value) -> bool {
        self.same(other)
    }
}

impl Eq for Value {
    ghost laws = { decided value_eq value_eq-Decides };
}

impl Hash for Value {
    ghost hash_input = { value_writes };

    ghost respects_eq = { (same_Alike value_writes value_eq-Decides).fed };

    fn hash<H: Hasher>(&self, state: &mut H) {
        match self {
            Value::Null => state.write_u8(0),
            Value::Bool(truth) => {
                state.write_u8(1);
                truth.hash(state);
            }
            Value::Int(number) => {
                state.write_u8(2);
                number.hash(state);
            }
            Value::Text(text) => {
                state.write_u8(3);
                text.as_str().hash(state);
            }
            Value::Ints(numbers) => {
                state.write_u8(4);
                numbers.as_slice().hash(state);
            }
        }
    }
}

impl PartialEq for Key {
    ghost eq = { key_eq };

    ghost laws = { partial_equiv_from_equiv (decided key_eq key_eq-Decides) };

    fn eq(&self, other: &Key) -> bool {
        self.same(other)
    }
}

impl Eq for Key {
    ghost laws = { decided key_eq key_eq-Decides };
}

impl Hash for Key {
    ghost hash_input = { key_writes };

    ghost respects_eq = { (same_Alike key_writes key_eq-Decides).fed };

    fn hash<H: Hasher>(&self, state: &mut H) {
        state.write_u32(self.node);
        self.parts.as_slice().hash(state);
    }
}
