//! What every crate of ecpgc stands on: lists that contracts see as lists, lines, the named refusals, and the sources
//! and sinks of bytes with their counts of faults.
#![tactic(auto)]

mod boxed;
mod calls;
mod fault;
mod keeping;
mod line;
mod list;
mod mem_sink;
mod mem_source;
mod name;
mod numbers;
mod putting;
mod reading;
mod reserved;
mod sink;
mod source;
mod std_sink;
mod std_source;
mod stop;
mod texts;

pub use boxed::Boxed;
pub use fault::{FaultKind, LimitKind};
pub use keeping::beside;
pub use line::Line;
pub use list::{Bytes, List};
pub use mem_sink::MemSink;
pub use mem_source::MemSource;
pub use name::Name;
pub use putting::put_all;
pub use reading::read_all;
pub use reserved::Reserved;
pub use sink::Sink;
pub use source::Source;
pub use std_sink::StdSink;
pub use std_source::StdSource;
pub use stop::{Failed, InputStop, OutOfMemory, Stop, Trap};
