//! The calls of the library, over a memory and a rack of links.
#![tactic(auto)]

mod answering;
mod area;
mod autocommit;
mod call;
mod connecting;
mod control;
mod describing;
mod disconnecting;
mod finding;
mod firsts;
mod host;
mod inputs;
mod library;
mod open;
mod order;
mod prepared;
mod preparing;
mod requests;
mod resuming;
mod running;
mod sessions;
mod stop;
mod storing;
mod waiting;

pub use call::{Act, Call, Connect, Describe, Destination, Kind, Statement, Wanted};
pub use host::{Host, places_that_fit};
pub use inputs::{GivenText, Input, TextArg};
pub use library::{Library, Pending, Progress};
pub use stop::CallStop;
