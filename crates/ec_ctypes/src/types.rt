//! Types, their layout and their arithmetic.

mod arith;
mod arithmetic;
mod examples;
mod laws;
pub(crate) mod sizes;
mod structs;
mod ty;

pub use arith::Arith;
pub use arithmetic::{convert, promote, usual};
pub use examples::layout_examples;
pub use laws::{conversion_examples, one_conversion};
pub use sizes::{Shape, layout, member, type_shape};
pub use structs::Structs;
pub use ty::{StructDef, Ty};
