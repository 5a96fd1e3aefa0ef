//! The machine's state.

use crate::frame::Frame;
use crate::scope::Scope;
use ec_base::{Bytes, Line, List};
use ec_memory::Store;
use ec_values::Word;

/// A machine in the middle of a run. The frames wait for what is looked at, the innermost last.
#[derive(Drop)]
pub struct Machine<'p> {
    pub store: Store,
    /// The turns that are left.
    pub turns: u64,
    /// The line of the innermost statement that was started.
    pub line: Line,
    pub frames: List<Frame<'p>>,
    pub scope: Scope,
    /// Whether the function that is run is the first `main`.
    pub first: bool,
    /// The values of arguments, of all calls whose arguments are being evaluated.
    pub values: List<Word>,
    /// What the first `main` gives where its body ends.
    pub otherwise: Option<Word>,
    /// The bytes that a known function put last.
    pub text: Bytes,
}
