//! Integer constant expressions (ISO/IEC 9899:1999, 6.6).

mod constant;
mod values;

pub use constant::{Constant, binary_constant, cast_constant, unary_constant};
pub use values::{binary_value, unary_value};
