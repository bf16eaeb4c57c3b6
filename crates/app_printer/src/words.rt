//! The words and symbols of terms.

ghost use Rattle.std.specs.Prelude.{◌≡◌};
ghost use Rattle.app_printer.specs.Canonical.{strict_text, operator_text, sign_text, fun_text, plot_text, function_text};

use app_tree::{Function, Operator};
use rx_value::{BinOp, Fun, Plot, UnOp};

fn strict_text(operator: BinOp) -> &'static str
    ensures { result.now ≡ strict_text operator }
{
    match operator {
        BinOp::Add => "+",
        BinOp::Subtract => "-",
        BinOp::Multiply => "*",
        BinOp::Divide => "%/%",
        BinOp::Modulo => "%%",
        BinOp::Equal => "==",
        BinOp::NotEqual => "!=",
        BinOp::Less => "<",
        BinOp::LessOrEqual => "<=",
        BinOp::Greater => ">",
        BinOp::GreaterOrEqual => ">=",
    }
}

/// The symbol of an operator between two terms.
pub fn operator_text(operator: Operator) -> &'static str
    ensures { result.now ≡ operator_text operator }
{
    match operator {
        Operator::Or => "||",
        Operator::And => "&&",
        Operator::Strict(operator) => strict_text(operator),
    }
}

/// The sign before a term.
pub fn sign_text(sign: UnOp) -> &'static str
    ensures { result.now ≡ sign_text sign }
{
    match sign {
        UnOp::Negate => "-",
        UnOp::Not => "!",
    }
}

fn fun_text(fun: Fun) -> &'static str
    ensures { result.now ≡ fun_text fun }
{
    match fun {
        Fun::C => "c",
        Fun::Paste0 => "paste0",
        Fun::Length => "length",
        Fun::Nchar => "nchar",
        Fun::Item => "item",
        Fun::Sum => "sum",
        Fun::Min => "min",
        Fun::Max => "max",
        Fun::Seq => "seq",
        Fun::IsNull => "is_null",
        Fun::AsInt => "as_int",
    }
}

fn plot_text(plot: Plot) -> &'static str
    ensures { result.now ≡ plot_text plot }
{
    match plot {
        Plot::Bars => "bars",
        Plot::Lines => "lines",
        Plot::Points => "points",
    }
}

/// The word by which a function is called.
pub fn function_text(function: Function) -> &'static str
    ensures { result.now ≡ function_text function }
{
    match function {
        Function::Fun(fun) => fun_text(fun),
        Function::Plot(plot) => plot_text(plot),
    }
}
