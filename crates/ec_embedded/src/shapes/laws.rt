//! What holds of every shape, as the contract of a function that does nothing.

ghost use Rattle.ec_embedded.specs.shapes.Laws.{BeginsExactly, BeginsOnce, IsExact, IsSingle};

/// Where each choice of a shape is told by the next token, the plain reading of a list gives the verdict that the shape
/// has on it, and how the list begins by the shape; and each list has one verdict, and begins in one way.
#[tactic(none)]
pub fn readings_are_exact()
    ensures exact { IsExact }
    ensures single { IsSingle }
    ensures begins { BeginsExactly }
    ensures once { BeginsOnce }
{}
