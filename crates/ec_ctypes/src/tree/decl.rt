use crate::tree::Expr;
use ec_base::{Boxed, Line, List, Name};

/// What a declaration begins with (ISO/IEC 9899:1999, 6.7.2).
#[cycle(expr)]
#[derive(Debug, Drop)]
pub enum Base {
    /// The type words, in their order.
    Words(List<Name>),
    Varchar,
    /// A struct by its tag.
    Tag(Name),
    /// A struct with its members, and its tag if it has one.
    Struct(Option<Boxed<Name>>, Boxed<List<Decl>>),
}

/// A name that is declared, with its stars, its array lengths and its initializer (ISO/IEC 9899:1999, 6.7.5).
#[cycle(expr)]
#[derive(Debug, Drop)]
pub struct Declarator {
    pub stars: u32,
    pub name: Name,
    /// The array lengths, outermost first. One may be left out.
    pub dims: List<Option<Expr>>,
    pub init: Option<Init>,
}

/// An initializer (ISO/IEC 9899:1999, 6.7.8).
#[cycle(expr)]
#[derive(Debug, Drop)]
pub enum Init {
    One(Expr),
    /// In braces.
    Many(List<Init>),
}

/// A declaration of objects or of members (ISO/IEC 9899:1999, 6.7 and 6.7.2.1).
#[cycle(expr)]
#[derive(Debug, Drop)]
pub struct Decl {
    pub base: Base,
    pub items: List<Declarator>,
    /// Whether it stands in a declare section.
    pub section: bool,
    pub line: Line,
}
