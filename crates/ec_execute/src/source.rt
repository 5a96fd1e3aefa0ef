//! Sources: the C that is written of them, and what they are run as through it.
#![tactic(auto)]

mod laws;
mod reading;
mod writing;

pub use laws::translations_keep_meanings;
pub use reading::read_source;
pub use writing::translate_source;
