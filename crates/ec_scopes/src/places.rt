//! Places in a program.

use ec_base::Line;

/// The place of a function, a declaration, a declaration of members or a statement: its number in the order of the text,
/// and its line.
#[derive(Clone, Copy, Debug, PartialEq, Eq)]
pub struct Place {
    pub number: u64,
    pub line: Line,
}
