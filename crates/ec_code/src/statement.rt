//! Statements.

use crate::expression::Expression;
use crate::mark::Mark;
use crate::program::ObjectSize;
use ec_base::{Boxed, Line, List};

/// A statement or a declaration in a block (ISO/IEC 9899:1999, 6.8).
#[cycle(statement)]
#[derive(Debug, Drop)]
pub enum Statement {
    /// The statement stands on this line.
    OnLine(Line, Boxed<Statement>),
    Nothing,
    Evaluate(Expression),
    /// A declaration without an initializer: the slot, and the object's size.
    Declare(u32, u64),
    /// A declaration with an initializer: the stores of its values, in order.
    Initialize(u32, u64, List<Expression>),
    /// The sizes of its objects, in order.
    Block(List<ObjectSize>, List<Statement>),
    Choose(Expression, Boxed<Statement>, Boxed<Statement>),
    Loop(Boxed<Loop>),
    Leave,
    Next,
    Return(Option<Expression>),
    Goto(u32),
    /// A statement with a label, a `case` or `default` before it (6.8.1).
    Label(Mark, Boxed<Statement>),
    /// `switch`: the operand, of its promoted type, and the body (6.8.4.2).
    Switch(Expression, Boxed<Statement>),
    /// An embedded statement, by its number among these.
    Embedded(u32),
}

/// A loop (6.8.5).
#[cycle(statement)]
#[derive(Debug, Drop)]
pub struct Loop {
    /// Whether the first body is tested for.
    pub tested: bool,
    pub test: Option<Expression>,
    /// What is evaluated behind each body.
    pub behind: Option<Expression>,
    pub body: Statement,
}
