//! The parts of an object that an initializer gives a value.

use ec_base::Bytes;
use ec_code::Expression;
use ec_memory_defs::Kind;

/// What is stored in an object, at an offset in it.
#[derive(Debug, Drop)]
pub enum Part {
    /// A value of a scalar type.
    Scalar {
        offset: u64,
        kind: Kind,
        value: Expression,
    },
    /// The bytes of a literal, as the initializer of an array of characters puts them.
    Text {
        offset: u64,
        bytes: Bytes,
    },
    /// A struct of this size, from its address.
    Struct {
        offset: u64,
        size: u64,
        address: Expression,
    },
}
