//! What calls have to be given: the formats of known functions against the types of their arguments (ISO/IEC 9899:1999,
//! 7.19.6), and the calls of the library (PostgreSQL manual, chapter ECPG).
#![tactic(auto)]

mod conversions;
mod formats;
mod library;

pub use formats::is_format_of;
pub use library::{cuts, library_call};
