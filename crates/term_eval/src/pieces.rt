//! What asks nothing.
ghost use Rattle.std.specs.Prelude.{◌≡◌, IfOk, slice_get, unwrap_or, List, MatchOption};
ghost use Rattle.rx_value.specs.declared.value.Value.TheVariants as v;
ghost use Rattle.rx_value.specs.declared.outcome.Outcome.TheVariants.{Val};
ghost use Rattle.rx_value.specs.declared.value.Value.{Value};
ghost use Rattle.rx_value.specs.declared.failure.Failure.TheVariants.{NotACondition};
ghost use Rattle.rx_value.specs.Failure.{failure_outcome};
ghost use Rattle.rx_value.specs.Functions.{takes_arguments, function_result};
ghost use Rattle.rx_value.specs.Operators.{unary_result, binary_result};
ghost use Rattle.app_tree.specs.Evaluate.{wanted_bool, stop_outcome, required, plotted, called, Answers, Meaning, plain, chosen_by};
ghost use Rattle.term_eval.specs.inner.Early.{Comes};

use crate::ending::{Early, Halt, value_in};
use app_tree::Function;
use rx_value::{BinOp, Failure, Fun, Memory, Outcome, Plot, UnOp, Value};
use sqlite_items::Items;
use std::alloc::Global;
use svg_plot::{bars, lines, points};

pub fn failing(alloc: Global, why: Failure) -> Result<Value, Early>
    ensures { Comes (failure_outcome why) result }
{
    value_in(why.outcome(alloc)?)
}

pub fn copied(alloc: Global, value: &Value) -> Result<Value, Early>
    ensures { Comes (Val value.now) result }
{
    Ok(value.copy(alloc)?)
}

pub fn text_copied(alloc: Global, text: &rx_value::RxText) -> Result<Value, Early>
    ensures { Comes (Val (v.Text text.now)) result }
{
    Ok(Value::Text(text.copy(alloc)?))
}

/// A variable's value.
pub fn looked_up(alloc: Global, variables: &Items<Value>, place: usize) -> Result<Value, Early>
    ensures { Comes (Val (unwrap_or (slice_get variables.now place) v.Null)) result }
{
    match variables.get(place) {
        Some(value) => copied(alloc, value),
        None => Ok(Value::Null),
    }
}

pub fn stopped(alloc: Global, value: Value) -> Result<Value, Early>
    ensures { Comes (stop_outcome value) result }
{
    match value {
        Value::Text(text) => Err(Early::Halted(Halt::Fail(text))),
        _ => failing(alloc, Failure::WrongKind),
    }
}

pub fn required(value: Value, cancels: bool) -> Result<Value, Early>
    ensures { Comes (required cancels value) result }
{
    if value.is_truthy() {
        Ok(value)
    } else if cancels {
        Err(Early::Halted(Halt::Cancel))
    } else {
        Err(Early::Halted(Halt::Stop))
    }
}

pub fn wanted_bool(alloc: Global, value: Value) -> Result<Value, Early>
    ensures { Comes (wanted_bool value) result }
{
    match value {
        Value::Bool(truth) => Ok(Value::Bool(truth)),
        _ => failing(alloc, Failure::NotACondition),
    }
}

/// Which part a condition chooses.
pub fn truth_of(value: Value) -> Option<bool>
    ensures { MatchOption result ((m n : Meaning) (answers : Answers) (args : List Value) → chosen_by m n answers args value ≡ plain (failure_outcome NotACondition)) (λ truth. value ≡ v.Bool truth) }
{
    match value {
        Value::Bool(truth) => Some(truth),
        Value::Null | Value::Int(_) | Value::Text(_) | Value::Ints(_) => None,
    }
}

pub fn unary_value(alloc: Global, operator: UnOp, value: &Value) -> Result<Value, Early>
    ensures { Comes (unary_result operator value.now) result }
{
    value_in(rx_value::unary(alloc, operator, value)?)
}

pub fn binary_value(
    alloc: Global,
    operator: BinOp,
    left: &Value,
    right: &Value,
) -> Result<Value, Early>
    ensures { Comes (binary_result operator left.now right.now) result }
{
    value_in(rx_value::binary(alloc, operator, left, right)?)
}

/// The app's checks leave no call with another number of arguments.
fn takes(function: Fun, count: usize) -> bool
    ensures { result ≡ takes_arguments function count }
{
    match function.argument_count() {
        Some(wanted) => count == wanted,
        None => true,
    }
}

fn function_value(alloc: Global, function: Fun, arguments: &[Value]) -> Result<Value, Early>
    ensures { Comes (function_result function arguments.now) result }
{
    if takes(function, arguments.len()) {
        value_in(rx_value::call(alloc, function, arguments)?)
    } else {
        failing(alloc, Failure::WrongKind)
    }
}

fn plotted(alloc: Global, plot: Plot, arguments: &[Value]) -> Result<Value, Early>
    ensures { Comes (plotted plot arguments.now) result }
{
    let [width, height, title, list] = arguments else {
        return failing(alloc, Failure::WrongKind);
    };
    let outcome = match plot {
        Plot::Bars => bars(alloc, width, height, title, list)?,
        Plot::Lines => lines(alloc, width, height, title, list)?,
        Plot::Points => points(alloc, width, height, title, list)?,
    };
    value_in(outcome)
}

pub fn called(alloc: Global, function: Function, arguments: &[Value]) -> Result<Value, Early>
    ensures { Comes (called function arguments.now) result }
{
    match function {
        Function::Fun(function) => function_value(alloc, function, arguments),
        Function::Plot(plot) => plotted(alloc, plot, arguments),
    }
}
