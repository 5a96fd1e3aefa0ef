//! Calls of the library cut at their requests: what a call does up to its first request, and from each request on; and
//! what stands at places in a log that others write too. No code.
#![tactic(auto)]

mod laws;

pub use laws::{calls_go_on, parts_ask_once, places_stay};
