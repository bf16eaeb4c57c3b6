ghost use Rattle.std.specs.Prelude.{◌≡◌, IfOk};
ghost use Rattle.rx_value.specs.Failure.{failure_text, failure_outcome};

use crate::memory::Memory;
use crate::outcome::Outcome;
use crate::text::RxText;
use std::alloc::Global;

/// Why an operator, a function or a plot has no value.
#[derive(Clone, Copy, Debug, PartialEq, Eq)]
pub enum Failure {
    /// A number does not fit 64 bits with sign.
    NumberOutOfRange,
    DivisionByZero,
    /// An operand is of a kind that the operator does not take.
    WrongKind,
    /// What must be true or false is neither.
    NotACondition,
    /// There is no item of this number, or no item at all.
    IndexOutOfRange,
    /// A list would have more than 1,000 numbers.
    ListTooLong,
    /// A text would have more than 65,536 bytes.
    TextTooLong,
    /// A plot's width or height is not from 64 to 4,096.
    PlotSizeOutOfRange,
}

impl Failure {
    /// The text that is shown as the error.
    pub fn text(self) -> &'static str
        ensures { result.now ≡ failure_text self }
    {
        match self {
            Failure::NumberOutOfRange => "number out of range",
            Failure::DivisionByZero => "division by zero",
            Failure::WrongKind => "wrong kind of value",
            Failure::NotACondition => "condition is not true or false",
            Failure::IndexOutOfRange => "index out of range",
            Failure::ListTooLong => "list too long",
            Failure::TextTooLong => "text too long",
            Failure::PlotSizeOutOfRange => "plot size out of range",
        }
    }

    /// The outcome of an evaluation that fails so.
    pub fn outcome(self, alloc: Global) -> Result<Outcome, Memory>
        ensures { IfOk result (λ outcome. outcome ≡ failure_outcome self) }
    {
        Ok(Outcome::Fail(RxText::from_str(alloc, self.text())?))
    }
}
