//! SQL descriptors: lists of items, each list with its name (PostgreSQL manual, chapter ECPG, section "Using Descriptor
//! Areas").
#![tactic(auto)]

mod areas;
mod changes;
mod items;
mod stop;

pub use areas::Areas;
pub use items::{AreaItem, with_contents, within};
pub use stop::AreaStop;
