//! What the tree of every source keeps.
#![tactic(auto)]

mod laws;

pub use laws::{derived_trees_have_source_shape, sources_have_source_shape};
