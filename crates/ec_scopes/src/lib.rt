//! What is known where a part of a program stands: the scopes, the structs and the declarations so far, and the first violation.
#![tactic(auto)]

mod counts;
mod embedded;
mod entries;
mod found;
mod measures;
mod names;
mod parts;
mod places;
mod scopes;
mod shared;
mod start;
mod state;
mod structs;
mod table;
mod tags;
mod varchars;

pub use entries::{Entry, Scope};
pub use found::Found;
pub use measures::Measure;
pub use places::Place;
pub use shared::Shared;
pub use state::Checker;
pub use structs::{Members, StructRow, StructTable};
pub use table::Table;
