//! What words and symbols stand for in terms.

ghost use Rattle.std.specs.Prelude.{◌≡◌};
ghost use Rattle.app_tree.specs.Fits.{arguments_of};
ghost use Rattle.app_reader.specs.Words.{product_operator, sum_operator, comparison_operator, and_operator, or_operator, operator_of, sign_of, function_of, read_form_of};

use app_tokens::{Symbol, Word};
use app_tree::{Function, Operator, ReadForm};
use rx_value::{BinOp, Fun, Plot, UnOp};

/// How close an operator binds: those of an earlier rank bind closer.
#[derive(Clone, Copy, Debug, PartialEq, Eq)]
pub enum Rank {
    Product,
    Sum,
    /// A chain has at most one operator of this rank.
    Comparison,
    And,
    Or,
}

fn product_operator(symbol: Symbol) -> Option<Operator>
    ensures { result ≡ product_operator symbol }
{
    match symbol {
        Symbol::Star => Some(Operator::Strict(BinOp::Multiply)),
        Symbol::Quotient => Some(Operator::Strict(BinOp::Divide)),
        Symbol::Remainder => Some(Operator::Strict(BinOp::Modulo)),
        _ => None,
    }
}

fn sum_operator(symbol: Symbol) -> Option<Operator>
    ensures { result ≡ sum_operator symbol }
{
    match symbol {
        Symbol::Plus => Some(Operator::Strict(BinOp::Add)),
        Symbol::Minus => Some(Operator::Strict(BinOp::Subtract)),
        _ => None,
    }
}

fn comparison_operator(symbol: Symbol) -> Option<Operator>
    ensures { result ≡ comparison_operator symbol }
{
    match symbol {
        Symbol::Equal => Some(Operator::Strict(BinOp::Equal)),
        Symbol::NotEqual => Some(Operator::Strict(BinOp::NotEqual)),
        Symbol::Less => Some(Operator::Strict(BinOp::Less)),
        Symbol::AtMost => Some(Operator::Strict(BinOp::LessOrEqual)),
        Symbol::Greater => Some(Operator::Strict(BinOp::Greater)),
        Symbol::AtLeast => Some(Operator::Strict(BinOp::GreaterOrEqual)),
        _ => None,
    }
}

fn and_operator(symbol: Symbol) -> Option<Operator>
    ensures { result ≡ and_operator symbol }
{
    match symbol {
        Symbol::And => Some(Operator::And),
        _ => None,
    }
}

fn or_operator(symbol: Symbol) -> Option<Operator>
    ensures { result ≡ or_operator symbol }
{
    match symbol {
        Symbol::Or => Some(Operator::Or),
        _ => None,
    }
}

/// The operator of this rank that the symbol is.
pub fn operator_of(rank: Rank, symbol: Symbol) -> Option<Operator>
    ensures { result ≡ operator_of rank symbol }
{
    match rank {
        Rank::Product => product_operator(symbol),
        Rank::Sum => sum_operator(symbol),
        Rank::Comparison => comparison_operator(symbol),
        Rank::And => and_operator(symbol),
        Rank::Or => or_operator(symbol),
    }
}

/// The sign before an operand that the symbol is.
pub fn sign_of(symbol: Symbol) -> Option<UnOp>
    ensures { result ≡ sign_of symbol }
{
    match symbol {
        Symbol::Minus => Some(UnOp::Negate),
        Symbol::Not => Some(UnOp::Not),
        _ => None,
    }
}

/// The function that is called by this word.
pub fn function_of(word: Word) -> Option<Function>
    ensures { result ≡ function_of word }
{
    match word {
        Word::C => Some(Function::Fun(Fun::C)),
        Word::Paste0 => Some(Function::Fun(Fun::Paste0)),
        Word::Length => Some(Function::Fun(Fun::Length)),
        Word::Nchar => Some(Function::Fun(Fun::Nchar)),
        Word::Item => Some(Function::Fun(Fun::Item)),
        Word::Sum => Some(Function::Fun(Fun::Sum)),
        Word::Min => Some(Function::Fun(Fun::Min)),
        Word::Max => Some(Function::Fun(Fun::Max)),
        Word::Seq => Some(Function::Fun(Fun::Seq)),
        Word::IsNull => Some(Function::Fun(Fun::IsNull)),
        Word::AsInt => Some(Function::Fun(Fun::AsInt)),
        Word::Bars => Some(Function::Plot(Plot::Bars)),
        Word::Lines => Some(Function::Plot(Plot::Lines)),
        Word::Points => Some(Function::Plot(Plot::Points)),
        _ => None,
    }
}

/// How many arguments the function takes; None where it takes any number.
pub fn count_of(function: Function) -> Option<usize>
    ensures { result ≡ arguments_of function }
{
    match function {
        Function::Fun(fun) => fun.argument_count(),
        Function::Plot(_) => Some(4),
    }
}

/// The read that is this word and a name in brackets.
pub fn read_form_of(word: Word) -> Option<ReadForm>
    ensures { result ≡ read_form_of word }
{
    match word {
        Word::Status => Some(ReadForm::Status),
        Word::Result => Some(ReadForm::Result),
        Word::Width => Some(ReadForm::Width),
        Word::Height => Some(ReadForm::Height),
        _ => None,
    }
}
