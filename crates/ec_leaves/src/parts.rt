//! A leaf of a host.

use ec_base::{List, Name};
use ec_ctypes::Ty;

/// A part of a host that is sent or stored by itself.
#[derive(Debug, Drop)]
pub struct Leaf {
    /// Whether it lies in the first struct of an array.
    pub in_first: bool,
    /// The members that lead to it, each with the number of its struct.
    pub path: List<(u32, Name)>,
    /// The type of the place.
    pub whole: Ty,
    /// The type of one element.
    pub element: Ty,
    /// How many elements there are.
    pub count: u64,
    /// The type whose size is the distance from one element to the next.
    pub apart: Ty,
}

/// What holds the members that leaves are.
#[derive(Clone, Copy, Debug)]
pub(crate) enum Frame {
    /// One struct.
    Single,
    /// An array of the struct of this number, with so many elements.
    Many(u32, u64),
}

/// A struct, in one of whose members the walk is.
#[derive(Debug, Drop)]
pub(crate) struct Step {
    /// Its number.
    pub id: u32,
    /// The name of the member.
    pub name: Name,
    /// The place of the member behind it.
    pub next: usize,
}

/// A walk through the members of a struct and of the structs that it holds.
#[derive(Debug, Drop)]
pub(crate) struct Walk {
    /// The structs round the one that is gone through, the outermost first.
    pub outer: List<Step>,
    /// The number of the struct that is gone through.
    pub id: u32,
    /// The place of its next member.
    pub next: usize,
    /// The leaves so far.
    pub leaves: List<Leaf>,
}

/// What a turn of a walk came to.
#[derive(Clone, Copy, Debug)]
pub(crate) enum Turn {
    /// The walk goes on.
    Goes,
    /// These are all leaves.
    Ended,
    /// A member stands for no leaves.
    NoHost,
}
