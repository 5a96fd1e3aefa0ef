//! What is found out about a program: its types, its hosts, its handlers, and the library calls of its statements.

mod bound;
mod library;
mod typed;

pub use bound::{Bound, Place};
pub use library::{LibName, Sym};
pub use typed::{HandlerTable, HostTable, Typed};
