use crate::tree::Base;
use crate::types::Ty;
use ec_base::{Boxed, Bytes, List, Name};

/// A unary operator (ISO/IEC 9899:1999, 6.5.3.2 and 6.5.3.3).
#[derive(Clone, Copy, Debug, PartialEq, Eq)]
pub enum UnOp {
    /// `&`
    Addr,
    /// `*`
    Deref,
    /// `+`
    Plus,
    /// `-`
    Minus,
    /// `!`
    Not,
    /// `~`
    Flip,
}

/// A binary operator (ISO/IEC 9899:1999, 6.5.5 to 6.5.14).
#[derive(Clone, Copy, Debug, PartialEq, Eq)]
pub enum BinOp {
    /// `||`
    Or,
    /// `&&`
    And,
    /// `|`
    BitOr,
    /// `^`
    BitXor,
    /// `&`
    BitAnd,
    /// `==`
    Eq,
    /// `!=`
    Ne,
    /// `<`
    Lt,
    /// `>`
    Gt,
    /// `<=`
    Le,
    /// `>=`
    Ge,
    /// `<<`
    Shl,
    /// `>>`
    Shr,
    /// `+`
    Add,
    /// `-`
    Sub,
    /// `*`
    Mul,
    /// `/`
    Div,
    /// `%`
    Rem,
}

/// An expression (ISO/IEC 9899:1999, 6.5). Parentheses are gone.
#[cycle(expr)]
#[derive(Debug, Drop)]
pub enum Expr {
    /// An integer constant, with its type.
    Int(u64, Ty),
    /// A character constant, which has the type int.
    Char(i8),
    /// A string literal, without its zero byte.
    Str(Bytes),
    Name(Name),
    Unary(UnOp, Boxed<Expr>),
    Binary(BinOp, Boxed<Expr>, Boxed<Expr>),
    /// `a = b`, or `a op= b` with its operator.
    Assign(Option<BinOp>, Boxed<Expr>, Boxed<Expr>),
    /// `++` or `--`.
    Bump {
        /// Whether the operator stands before its operand.
        before: bool,
        /// Whether it is `++`.
        up: bool,
        of: Boxed<Expr>,
    },
    /// A call of the function of this name.
    Call(Name, Boxed<List<Expr>>),
    /// A call whose function is no name.
    CallOther(Boxed<Expr>, List<Expr>),
    /// `a[b]`
    Index(Boxed<Expr>, Boxed<Expr>),
    /// `a.m`
    Member(Boxed<Expr>, Name),
    /// `a->m`
    Arrow(Boxed<Expr>, Name),
    /// A cast to a type, which is a base and so many stars.
    Cast(Boxed<Base>, u32, Boxed<Expr>),
    /// `sizeof` of a type, which is a base and so many stars.
    SizeType(Boxed<Base>, u32),
    /// `sizeof` of an expression.
    SizeExpr(Boxed<Expr>),
}
