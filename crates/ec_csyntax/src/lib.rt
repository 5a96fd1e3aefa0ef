//! Reads statements and whole programs: the tree of the tokens of a text, or the stop.
#![tactic(auto)]

mod blocks;
mod forms;
mod makers;
mod nested;
mod programs;
mod statements;
mod texts;
mod units;

pub use programs::parse;
