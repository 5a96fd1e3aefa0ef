//! Reads the tokens of C text and of what is embedded in it.
#![tactic(auto)]

mod escapes;
mod items;
mod lexer;
mod lines;
mod marks;
mod numbers;
mod sql;
mod statements;
mod words;

pub use escapes::character;
pub use lexer::tokens;
pub use numbers::digits_value;
pub use sql::{SqlClass, SqlToken, sql_tokens};
