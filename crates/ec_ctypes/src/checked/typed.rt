use crate::embedded::{Action, Cond};
use crate::tree::Unit;
use crate::types::{Structs, Ty};
use ec_base::List;

/// The objects, parameters and functions that are declared in a section, by the numbers of their declarations.
#[derive(Debug, Drop)]
pub struct HostTable {
    pub hosts: List<u32>,
}

/// Every WHENEVER, in order: its place, its condition and its action.
#[derive(Debug, Drop)]
pub struct HandlerTable {
    pub marks: List<(u32, Cond, Action)>,
}

/// A program with what the checks found.
#[derive(Debug, Drop)]
pub struct Typed {
    pub unit: Unit,
    /// The structs: first that of `sqlerrm`, then that of `sqlca`, then those of the program, in the order of the places
    /// where their members close. A tag whose members never close comes after all these.
    pub structs: Structs,
    /// The type of each object and parameter and the result type of each function, by the number of its declaration in
    /// the order of the text, from 0.
    pub names: List<(u32, Ty)>,
    pub hosts: HostTable,
    pub handlers: HandlerTable,
    /// For each embedded statement, by its number: the declarations that the variables in its hosts denote where the
    /// statement stands, in the order of its tree. There is none for a name that no declaration of the program has.
    pub denoted: List<List<Option<u32>>>,
}
