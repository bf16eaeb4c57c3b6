ghost use Rattle.std.specs.Prelude.{◌≡◌, ◌≢◌, IfOk, pos, ◌+ℤ◌, ◌-ℤ◌, ◌*ℤ◌};
ghost use Rattle.rx_value.specs.Arithmetic.{floor_quotient, floor_remainder, IsRoundedDown};
ghost use Rattle.rx_value.specs.Operators.{number_outcome, binary_result};
ghost use Rattle.rx_value.specs.declared.operator.BinOp.TheVariants.{Add, Subtract, Multiply, Divide, Modulo};

use crate::failure::Failure;
use crate::memory::Memory;
use crate::outcome::Outcome;
use crate::value::Value;
use std::alloc::Global;

/// The outcome of a computation that came to this number.
pub fn number_outcome(alloc: Global, number: i128) -> Result<Outcome, Memory>
    ensures { IfOk result (λ outcome. outcome ≡ number_outcome number) }
{
    match i64::try_from(number) {
        Ok(number) => Ok(Outcome::Val(Value::Int(number))),
        Err(_) => Failure::NumberOutOfRange.outcome(alloc),
    }
}

/// The product of two numbers of 64 bits, which fits 128.
fn wide_product(a: i64, b: i64) -> i128
    ensures { result ≡ a *ℤ b }
{
    i128::from(a) * i128::from(b)
}

/// The quotient rounded down.
fn floor_quotient(a: i64, b: i64) -> i128
    requires { b ≢ pos 0 }
    ensures value { result ≡ floor_quotient a b }
    ensures rounded { IsRoundedDown a b result }
{
    let (a, b) = (i128::from(a), i128::from(b));
    if b > 0 {
        a.div_euclid(b)
    } else {
        (-a).div_euclid(-b)
    }
}

/// What the quotient rounded down leaves of a. It lies between 0 and b, so it fits 64 bits.
fn floor_remainder(a: i64, b: i64) -> i64
    requires { b ≢ pos 0 }
    ensures { result ≡ floor_remainder a b }
{
    if b > 0 {
        return a.rem_euclid(b);
    }
    let (a, b) = (i128::from(a), i128::from(b));
    let rest = (-a).rem_euclid(-b);
    -rest as i64
}

/// `a + b`
pub fn sum(alloc: Global, a: &Value, b: &Value) -> Result<Outcome, Memory>
    ensures { IfOk result (λ outcome. outcome ≡ binary_result Add a.now b.now) }
{
    let (Value::Int(a), Value::Int(b)) = (a, b) else {
        return Failure::WrongKind.outcome(alloc);
    };
    number_outcome(alloc, i128::from(*a) + i128::from(*b))
}

/// `a - b`
pub fn difference(alloc: Global, a: &Value, b: &Value) -> Result<Outcome, Memory>
    ensures { IfOk result (λ outcome. outcome ≡ binary_result Subtract a.now b.now) }
{
    let (Value::Int(a), Value::Int(b)) = (a, b) else {
        return Failure::WrongKind.outcome(alloc);
    };
    number_outcome(alloc, i128::from(*a) - i128::from(*b))
}

/// `a * b`
pub fn product(alloc: Global, a: &Value, b: &Value) -> Result<Outcome, Memory>
    ensures { IfOk result (λ outcome. outcome ≡ binary_result Multiply a.now b.now) }
{
    let (Value::Int(a), Value::Int(b)) = (a, b) else {
        return Failure::WrongKind.outcome(alloc);
    };
    number_outcome(alloc, wide_product(*a, *b))
}

/// `a %/% b`
pub fn quotient(alloc: Global, a: &Value, b: &Value) -> Result<Outcome, Memory>
    ensures { IfOk result (λ outcome. outcome ≡ binary_result Divide a.now b.now) }
{
    let (Value::Int(a), Value::Int(b)) = (a, b) else {
        return Failure::WrongKind.outcome(alloc);
    };
    if *b == 0 {
        return Failure::DivisionByZero.outcome(alloc);
    }
    number_outcome(alloc, floor_quotient(*a, *b))
}

/// `a %% b`
pub fn remainder(alloc: Global, a: &Value, b: &Value) -> Result<Outcome, Memory>
    ensures { IfOk result (λ outcome. outcome ≡ binary_result Modulo a.now b.now) }
{
    let (Value::Int(a), Value::Int(b)) = (a, b) else {
        return Failure::WrongKind.outcome(alloc);
    };
    if *b == 0 {
        return Failure::DivisionByZero.outcome(alloc);
    }
    Ok(Outcome::Val(Value::Int(floor_remainder(*a, *b))))
}
