//! Calls of the library with their arguments (PostgreSQL manual, chapter ECPG).

use ec_base::{Bytes, List};
use ec_code::Expression;
use ec_ctypes::{LibName, Sym};

/// An argument, by what it is.
#[derive(Debug, Drop)]
pub enum Argument {
    Symbol(Sym),
    /// A string literal.
    Literal(Bytes),
    /// `NULL`
    Null,
    /// A constant of type `int`.
    Int(u64),
    /// A constant of type `long`.
    Long(u64),
    Pointer(Expression),
    /// A pointer that is evaluated before the call.
    Before,
    /// Anything else, which no call takes.
    Stray,
}

/// A call of the library.
#[derive(Debug, Drop)]
pub struct LibraryCall {
    pub name: LibName,
    pub arguments: List<Argument>,
}
