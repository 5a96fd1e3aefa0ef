//! Where the objects of a program are while it is resolved: the objects of its names, its globals and literals so far, and the
//! objects of the innermost block.
#![tactic(auto)]

mod block;
mod embedded;
mod library;
mod names;
mod resolved;
mod site;
mod storage;

pub use block::BlockObjects;
pub use embedded::{Action, Actions, EmbeddedForm, Reference};
pub use library::{Argument, LibraryCall};
pub use names::Names;
pub use resolved::Resolved;
pub use site::{Site, site_leaf};
pub use storage::Storage;
