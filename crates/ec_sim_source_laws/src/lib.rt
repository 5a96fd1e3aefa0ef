//! What holds of every accepted source, up to the law that its written C means what it means and is run as that.
#![tactic(auto)]

pub mod block;
pub mod count;
pub mod meaning;
pub mod object;
pub mod run;
pub mod section;
