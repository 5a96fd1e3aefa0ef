//! The formats of `printf`, taken apart (ISO/IEC 9899:1999, 7.19.6.1).
#![tactic(auto)]

mod amounts;
mod directives;
pub mod formats;
mod gathered;
mod letters;
mod parts;

pub use parts::format_parts;
