//! Initializers (ISO/IEC 9899:1999, 6.7.8; at file level 6.6).
#![tactic(auto)]

mod braces;
mod fill;
mod frames;
mod parts;

pub use braces::{braced_frames, completed_by, completed_in_braces};
pub use fill::initializer;
pub use frames::{Frame, Frames, Taken, take_next};
pub use parts::open_first;
