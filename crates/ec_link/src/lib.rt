//! Requests to a server and its replies, the links that carry them, and the rack that keeps the links and logs what was
//! said over them.
#![tactic(auto)]

mod connecting;
mod connection;
mod copies;
mod link;
mod logged;
mod mem_link;
mod rack;
mod reply;
mod request;
mod slot;
mod table;

pub use connection::Conn;
pub use link::Link;
pub use logged::Logged;
pub use mem_link::MemLink;
pub use rack::Rack;
pub use reply::{Reply, SqlState, Tx};
pub use request::Request;
pub use slot::Slot;
pub use table::{Col, Row, Table};
