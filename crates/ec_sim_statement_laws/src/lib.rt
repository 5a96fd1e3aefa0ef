//! What an embedded statement, its arguments and its expressions mean is what is written for them, where they stand
//! alone.
#![tactic(auto)]

pub mod argument;
pub mod expression;
pub mod statement;
