//! The program that is written for a program with embedded SQL.
#![tactic(auto)]

mod blocks;
mod lines;
mod programs;
mod statements;

pub use programs::expand;
