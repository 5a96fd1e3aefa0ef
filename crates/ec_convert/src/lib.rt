//! Values between the variables of a program and its statements: what a host gives as a parameter, and what a field of
//! an answer stores in a host.
#![tactic(auto)]

mod element;
mod host;
mod input;
mod law;
mod numbers;
mod output;
mod piece;
mod stop;

pub use host::{HostPlace, is_typed};
pub use input::to_text;
pub use law::numbers_come_back;
pub use numbers::number_in;
pub use output::from_text;
pub use stop::ConvStop;
