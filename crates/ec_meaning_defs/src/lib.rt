//! What programs mean: the functions that they call, the trees that are left of them, what is seen of a run, and their
//! evaluation.
#![tactic(auto)]

pub mod evaluation;
pub mod functions;
pub mod observed;
pub mod resolved;
