//! How trees are printed.

mod copies;
mod expressions;
mod programs;
mod statements;
mod types;
