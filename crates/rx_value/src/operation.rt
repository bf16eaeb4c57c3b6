ghost use Rattle.std.specs.Prelude.{◌≡◌, IfOk};
ghost use Rattle.std.specs.Option.{option_copied};
ghost use Rattle.rx_value.specs.Operators.{unary_result, binary_result, order_of, bool_outcome, truth_outcome};

use crate::arithmetic::{difference, number_outcome, product, quotient, remainder, sum};
use crate::failure::Failure;
use crate::memory::Memory;
use crate::operator::{BinOp, UnOp};
use crate::outcome::Outcome;
use crate::value::Value;
use std::alloc::Global;
use std::cmp::Ordering;

/// What an operator with one operand gives: a value, or the failure of the operand's kind or of a
/// number that does not fit.
pub fn unary(alloc: Global, operator: UnOp, a: &Value) -> Result<Outcome, Memory>
    ensures { IfOk result (λ outcome. outcome ≡ unary_result operator a.now) }
{
    match (operator, a) {
        (UnOp::Negate, Value::Int(number)) => number_outcome(alloc, -i128::from(*number)),
        (UnOp::Negate, _) => Failure::WrongKind.outcome(alloc),
        (UnOp::Not, Value::Bool(truth)) => Ok(bool_outcome(!*truth)),
        (UnOp::Not, _) => Failure::NotACondition.outcome(alloc),
    }
}

pub fn bool_outcome(truth: bool) -> Outcome
    ensures { result ≡ bool_outcome truth }
{
    Outcome::Val(Value::Bool(truth))
}

/// How two numbers, or the bytes of two texts, are ordered; None for other operands.
fn order_of(a: &Value, b: &Value) -> Option<Ordering>
    ensures { result ≡ order_of a.now b.now }
{
    match (a, b) {
        (Value::Int(a), Value::Int(b)) => Some((*a).cmp(b)),
        (Value::Text(a), Value::Text(b)) => Some(a.as_str().cmp(b.as_str())),
        _ => None,
    }
}

/// The outcome of a comparison; None where the operands are not ordered.
fn truth_outcome(alloc: Global, truth: Option<bool>) -> Result<Outcome, Memory>
    ensures { IfOk result (λ outcome. outcome ≡ truth_outcome truth) }
{
    match truth {
        Some(truth) => Ok(bool_outcome(truth)),
        None => Failure::WrongKind.outcome(alloc),
    }
}

/// What an operator with two operands gives: a value, or the failure of the operands' kinds, of a
/// division by 0 or of a number that does not fit.
pub fn binary(alloc: Global, operator: BinOp, a: &Value, b: &Value) -> Result<Outcome, Memory>
    ensures { IfOk result (λ outcome. outcome ≡ binary_result operator a.now b.now) }
{
    match operator {
        BinOp::Add => sum(alloc, a, b),
        BinOp::Subtract => difference(alloc, a, b),
        BinOp::Multiply => product(alloc, a, b),
        BinOp::Divide => quotient(alloc, a, b),
        BinOp::Modulo => remainder(alloc, a, b),
        BinOp::Equal => Ok(bool_outcome(a.same(b))),
        BinOp::NotEqual => Ok(bool_outcome(!a.same(b))),
        BinOp::Less => truth_outcome(alloc, order_of(a, b).map(|order| order.is_lt())),
        BinOp::LessOrEqual => truth_outcome(alloc, order_of(a, b).map(|order| order.is_le())),
        BinOp::Greater => truth_outcome(alloc, order_of(a, b).map(|order| order.is_gt())),
        BinOp::GreaterOrEqual => truth_outcome(alloc, order_of(a, b).map(|order| order.is_ge())),
    }
}
