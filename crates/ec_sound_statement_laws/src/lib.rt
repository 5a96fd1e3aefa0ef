//! The resolved forms of statements and functions: labels are there, blocks have their objects, functions are found by their
//! names. A part of the law that every program that is accepted is resolved to a sound one.
#![tactic(auto)]

mod laws;

pub use laws::{
    blocks_have_their_objects, expressions_declare_nothing, functions_are_known,
    functions_have_their_places, labels_are_there, names_in_scope_stand, scopes_are_left,
    values_are_returned_and_stored,
};
