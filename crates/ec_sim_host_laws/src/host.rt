//! The pointers that are written for embedded statements lead to the places of their hosts, as the contracts of functions that
//! do nothing.
#![tactic(auto)]

mod laws;

pub use laws::{
    parts_lead_to_their_places, statements_lead_to_their_places, types_of_texts_name_them,
};
