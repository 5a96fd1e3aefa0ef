//! The trees of C programs.

mod decl;
mod expr;
mod stmt;
mod unit;

pub use decl::{Base, Decl, Declarator, Init};
pub use expr::{BinOp, Expr, UnOp};
pub use stmt::{ForParts, Stmt, StmtKind};
pub use unit::{Func, Param, Top, Unit};
