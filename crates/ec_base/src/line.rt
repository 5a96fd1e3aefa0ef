/// The number of a line of a text. The first line is 1, and the line of a byte is one more than the number of newlines
/// before it.
#[derive(Clone, Copy, Debug, PartialEq, Eq)]
pub struct Line(pub u32);
