//! Expressions and declarations as they are written: no sections, and each VARCHAR as its struct.
#![tactic(auto)]

mod declarations;
mod objects;
mod varchar;

pub use declarations::{is_varchar, written_base, written_declarators, written_dims, written_expr};
pub use objects::{push_globals, push_objects, varchar_object};
