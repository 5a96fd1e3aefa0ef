//! SQLite behind a link: what a program asks of its server is answered by a database in memory or in a file.
#![tactic(auto)]

mod bound;
mod control;
mod cursor;
mod database;
mod marks;
mod refusal;
mod session;
mod sheet;
mod sqlite_link;
mod statement;
mod words;

pub use sqlite_link::SqliteLink;
