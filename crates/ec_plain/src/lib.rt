//! Expressions without calls, evaluated over a memory: each gives its value, or stops as the definition says.
#![tactic(auto)]

mod both;
mod effect;
mod number;
mod one;
mod outcome;
mod quick;
mod shortcuts;
mod whole;

pub use both::{Ready, finish, prepare};
pub use one::unary;
pub use outcome::Outcome;
pub use shortcuts::{evaluate_argument, evaluate_change, evaluate_test};
pub use whole::evaluate;
