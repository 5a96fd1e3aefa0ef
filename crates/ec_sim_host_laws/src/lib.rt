//! Tables of hosts, references, cursors, hosts, what fits, and pointers, where an embedded statement stands.
#![tactic(auto)]

pub mod cursor;
pub mod fit;
pub mod host;
pub mod pointer;
pub mod reference;
pub mod table;
