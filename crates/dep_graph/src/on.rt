/// What a reader depends on.
#[derive(Clone, Copy, Debug, PartialEq, Eq)]
pub enum On {
    /// The source of this number.
    Source(u32),
    /// The expression of this reader number.
    Expr(u32),
}
