use crate::tree::{Decl, Expr};
use ec_base::{Boxed, Line, List, Name};

/// What stands in the parentheses of `for`, where it begins with no declaration (ISO/IEC 9899:1999, 6.8.5.3).
#[derive(Debug, Drop)]
pub struct ForParts {
    pub first: Option<Expr>,
    pub condition: Option<Expr>,
    pub step: Option<Expr>,
}

/// A statement or a declaration in a block (ISO/IEC 9899:1999, 6.8).
#[cycle(stmt)]
#[derive(Debug, Drop)]
pub struct Stmt {
    pub line: Line,
    pub kind: StmtKind,
}

/// What a statement is.
#[cycle(stmt)]
#[derive(Debug, Drop)]
pub enum StmtKind {
    Empty,
    Expr(Expr),
    Block(List<Stmt>),
    If(Boxed<Expr>, Boxed<Stmt>, Option<Boxed<Stmt>>),
    While(Expr, Boxed<Stmt>),
    Do(Boxed<Stmt>, Expr),
    For(Boxed<ForParts>, Boxed<Stmt>),
    Break,
    Continue,
    Return(Option<Expr>),
    Goto(Name),
    Label(Name, Boxed<Stmt>),
    Decl(Boxed<Decl>),
    /// An embedded statement, by its number among those of the unit.
    Emb(u32),
    /// A mark of a declare section: whether it opens one.
    Mark(bool),
}
