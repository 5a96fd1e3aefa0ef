//! What holds wherever the walk through a source comes to, as the contracts of functions that do nothing.
#![tactic(auto)]

mod kept;
mod positions;
mod walk;
mod worlds;

pub use kept::what_is_known_is_kept;
pub use positions::declarations_are_numbered;
pub use walk::the_walk_keeps_what_is_known;
pub use worlds::worlds_are_kept;
