use ec_ctypes::{Decl, Expr};

/// An expression that is read one level deeper than where it stands.
#[derive(Clone, Copy, Debug, PartialEq, Eq)]
pub enum Subexpression {
    /// The right side of an assignment.
    Assignment,
    /// An array length.
    Operators,
    /// The operand of a cast or of a unary operator.
    Cast,
    /// The operand of `++` or `--`.
    Unary,
    /// What stands behind `sizeof`.
    SizeOperand,
    /// An expression in parentheses.
    Parenthesized,
    /// An index in brackets.
    Index,
}

/// The first part of a `for` (ISO/IEC 9899:1999, 6.8.5.3).
#[derive(Debug, Drop)]
pub enum ForStart {
    Expression(Option<Expr>),
    Declaration(Decl),
}

/// What stands in the parentheses of a `for` (ISO/IEC 9899:1999, 6.8.5.3).
#[derive(Debug, Drop)]
pub struct ForHead {
    pub first: ForStart,
    pub condition: Option<Expr>,
    pub step: Option<Expr>,
}
