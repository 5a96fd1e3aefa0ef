//! Expressions: a chain of operators to the left is a list of steps, so that none goes deep.

use crate::step::{Binary, Leaf, Unary, Update};
use ec_base::{Boxed, List};
use ec_printf::formats::Known;
use ec_values::Operation;

/// An expression without calls and `?:`: where it begins, and the steps that are taken from there.
#[cycle(plain)]
#[derive(Debug, Drop)]
pub struct Plain {
    pub leaf: Leaf,
    pub steps: List<PlainStep>,
}

/// A step of an expression without calls and `?:`.
#[cycle(plain)]
#[derive(Debug, Drop)]
pub enum PlainStep {
    One(Unary),
    Two(Binary, Plain),
    /// An operation whose right operand is this number.
    WithNumber(Operation, i64),
    /// An operation whose right operand is the value of the `int` at this place among the objects in scope.
    WithInt(Operation, u32),
    /// The same of a `long`.
    WithLong(Operation, u32),
    /// `a op= b`, `++` and `--`, by this number.
    ChangeBy(Update, i64),
}

/// An expression (ISO/IEC 9899:1999, 6.5).
#[cycle(full)]
#[derive(Debug, Drop)]
pub enum Expression {
    /// One without calls and `?:`.
    Plain(Plain),
    Full(Full),
}

/// An expression that holds a call or `?:`: where it begins, and the steps that are taken from there.
#[cycle(full)]
#[derive(Debug, Drop)]
pub struct Full {
    pub head: Head,
    pub steps: List<FullStep>,
}

/// Where an expression that holds a call or `?:` begins.
#[cycle(full)]
#[derive(Debug, Drop)]
pub enum Head {
    /// An expression without these, whose steps are done first.
    Begun(Plain),
    /// A call of the function of this number, and whether its value is used (6.5.2.2).
    Call(u32, bool, List<Expression>),
    /// A call of a known function.
    Known(Known, List<Expression>),
    /// A call of the library, by its number among these, with the pointers that are evaluated before it.
    LibraryCall(u32, List<Expression>),
    /// `a ? b : c`, whose second and third operand have the type of the whole (6.5.15).
    Choice(Boxed<Expression>, Boxed<Expression>, Boxed<Expression>),
}

/// A step of an expression that holds a call or `?:`.
#[cycle(full)]
#[derive(Debug, Drop)]
pub enum FullStep {
    One(Unary),
    Two(Binary, Expression),
}
