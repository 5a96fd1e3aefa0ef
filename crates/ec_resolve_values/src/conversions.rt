//! Resolved forms over types alone: how a value is converted, and what operators, assignments and steps do with values whose
//! types are known.
#![tactic(auto)]

mod assigning;
mod conversion;
mod integers;
mod joined;
mod laws;
mod making;
mod operators;
mod pointers;
mod prefix;
mod scalar;

pub use assigning::{assignment, bump, compound};
pub use conversion::{
    Conversion, integer_kind, known_conversion, promotion, scalar_conversion, type_conversion,
    widening,
};
pub use joined::Joined;
pub use laws::operators_know_scalars;
pub use making::{converted, faulty, join, loaded, member, prefixed};
pub use operators::{binary, element, unary};
pub use prefix::Prefix;
pub use scalar::Scalar;
