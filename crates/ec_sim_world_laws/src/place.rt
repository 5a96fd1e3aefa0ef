//! The types and places of the references of a source, where they stand and in the tables of the whole source, as the
//! contracts of functions that do nothing.
#![tactic(auto)]

mod growth;
mod hosts;
mod references;
mod tables;

pub use growth::{what_grows_stays, what_is_written_stays};
pub use hosts::{
    elements_are_one_leaf, hosts_lead_to_their_places, leaves_lie_in_their_hosts,
    texts_lead_to_their_places,
};
pub use references::references_are_places;
pub use tables::{members_are_those_of_the_tables, sizes_are_those_of_the_tables};
