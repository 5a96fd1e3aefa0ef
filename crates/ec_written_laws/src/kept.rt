//! What the phases behind the syntax keep of the tree of a source.
#![tactic(auto)]

mod laws;

pub use laws::{checks_keep_calls_and_tags, phases_keep_what_is_written, sections_keep_varchars};
