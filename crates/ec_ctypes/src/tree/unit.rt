use crate::embedded::Emb;
use crate::tree::{Base, Decl, Expr, Stmt};
use ec_base::{Boxed, Bytes, Line, List, Name};

/// A parameter of a function (ISO/IEC 9899:1999, 6.7.5.3).
#[derive(Debug, Drop)]
pub struct Param {
    pub base: Base,
    pub stars: u32,
    pub name: Option<Name>,
    pub dims: List<Option<Expr>>,
    /// Whether it stands in a declare section.
    pub section: bool,
}

/// A declaration of a function, or its definition where it has a body (ISO/IEC 9899:1999, 6.9.1).
#[derive(Debug, Drop)]
pub struct Func {
    pub base: Base,
    pub stars: u32,
    pub name: Name,
    pub params: List<Param>,
    pub body: Option<List<Stmt>>,
    /// Whether it stands in a declare section.
    pub section: bool,
    pub line: Line,
}

/// What stands at the top level of a program.
#[derive(Debug, Drop)]
pub enum Top {
    /// The bytes of an `#include` line.
    Include(Bytes),
    /// A directive, by its number among the embedded statements.
    Directive(u32),
    Decl(Decl),
    Func(Boxed<Func>),
    /// A mark of a declare section: whether it opens one, and its line.
    Mark(bool, Line),
}

/// A program: one source, or one text of written C.
#[derive(Debug, Drop)]
pub struct Unit {
    pub tops: List<Top>,
    /// The embedded statements, in the order of the text.
    pub embs: List<Emb>,
    /// The line of the text's end.
    pub last: Line,
}
