//! All definitions together: `specs/` passes on those of the crates below. It has no code.
#![tactic(auto)]
