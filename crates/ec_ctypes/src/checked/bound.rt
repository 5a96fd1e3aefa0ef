use crate::checked::Sym;
use crate::tree::Expr;
use ec_base::{Bytes, List};

/// A host or a constant as the library is given it.
#[derive(Debug, Drop)]
pub struct Place {
    pub sym: Sym,
    /// The pointer to the value.
    pub value: Expr,
    /// The length of a char array or a VARCHAR, else 0.
    pub size: u64,
    /// How many elements there are.
    pub count: u64,
    /// The distance from one element to the next, in bytes.
    pub step: u64,
    /// The indicator: its symbol, its pointer, how many elements it has, and their distance.
    pub ind: Option<(Sym, Expr, u64, u64)>,
}

/// An embedded statement with its hosts as places.
#[derive(Debug, Drop)]
pub struct Bound {
    pub text: Bytes,
    pub texts: List<Expr>,
    pub ins: List<Place>,
    pub outs: List<Place>,
}
