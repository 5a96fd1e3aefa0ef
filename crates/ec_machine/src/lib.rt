//! A machine that runs a resolved program over a memory. What it is doing stands in a list of frames, so that no recursion
//! of the program is recursion of the machine.
#![tactic(auto)]

mod answers;
mod blocks;
mod calls;
mod expressions;
mod found;
mod frame;
mod labels;
mod loops;
mod machine;
mod making;
mod quick;
mod scope;
mod start;
mod statements;
mod step;
mod stop;

pub use calls::last;
pub use frame::{Callee, Flow, Focus, Frame, Way};
pub use labels::{holds, holds_any};
pub use machine::Machine;
pub use scope::Scope;
pub use stop::{End, Stop};
