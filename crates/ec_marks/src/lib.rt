//! The marks of a text that is prepared (PostgreSQL manual, chapter ECPG, Dynamic SQL): each `?` outside quotes and
//! comments stands for a parameter, and is sent as `$1`, `$2` and on.
#![tactic(auto)]

mod marks;
mod place;
mod step;

pub use marks::with_marks;
