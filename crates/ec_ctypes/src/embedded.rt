//! Embedded statements.

mod emb;
mod host;

pub use emb::{Action, Cond, Emb, EmbKind, Item};
pub use host::{Host, Input, Ins, Outs, Part, TextArg};
