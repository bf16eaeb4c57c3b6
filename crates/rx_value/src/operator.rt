/// The operators with one operand.
#[derive(Clone, Copy, Debug, PartialEq, Eq)]
pub enum UnOp {
    /// `-a`: the number with the other sign.
    Negate,
    /// `!a`: true where the operand is false.
    Not,
}

/// The operators with two operands that are both evaluated. `&&` and `||` are not among them, since
/// their second operand is not evaluated where the first one decides.
#[derive(Clone, Copy, Debug, PartialEq, Eq)]
pub enum BinOp {
    /// `a + b`
    Add,
    /// `a - b`
    Subtract,
    /// `a * b`
    Multiply,
    /// `a %/% b`: the quotient rounded down.
    Divide,
    /// `a %% b`: what the quotient rounded down leaves of a, which has the sign of b.
    Modulo,
    /// `a == b`: of one kind, with the same content.
    Equal,
    /// `a != b`
    NotEqual,
    /// `a < b`, of two numbers, or of two texts by their bytes.
    Less,
    /// `a <= b`
    LessOrEqual,
    /// `a > b`
    Greater,
    /// `a >= b`
    GreaterOrEqual,
}
