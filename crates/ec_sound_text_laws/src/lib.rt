//! Texts of written C that are read have trees in which nothing is embedded; no program that is accepted is ever stuck.
#![tactic(auto)]

mod laws;

pub use laws::{
    accepted_programs_are_never_stuck, texts_are_read, trees_are_read, what_is_read_has_types,
};
