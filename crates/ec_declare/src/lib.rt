//! Declare sections and VARCHARs: the faults of their marks and uses, and what is declared in a section.
#![tactic(auto)]

mod answers;
mod counting;
mod lengths;
mod marks;
mod places;
mod scan;
mod uses;

pub use answers::{functions, hosts};
