//! Resolved programs as a machine runs them: names and types have done their work, and an expression is a place where it
//! begins and the steps that are taken from there.
#![tactic(auto)]

mod expression;
mod making;
mod mark;
mod program;
mod statement;
mod step;

pub use expression::{Expression, Full, FullStep, Head, Plain, PlainStep};
pub use making::small;
pub use mark::Mark;
pub use program::{Function, GlobalVariable, Literal, ObjectSize, Program, Stored};
pub use statement::{Loop, Statement};
pub use step::{Binary, Leaf, Unary, Update};
