//! What names stand for (ISO/IEC 9899:1999, 6.2.1 and 6.2.3).

ghost use Rattle.std.specs.Prelude.{◌≡◌};
ghost use Rattle.ec_typing_defs.specs.Worlds as rule;
ghost use Rattle.ec_scopes.specs.Entries.{scope_view};

use crate::table::Table;
use ec_base::List;
use ec_ctypes::Ty;
use std::alloc::Global;

/// What a name stands for. Where a type has a fault there is none.
#[derive(Drop)]
pub enum Entry {
    /// An object or a parameter.
    Object {
        /// The number of its declaration.
        number: u32,
        /// Whether it stands at file level.
        is_global: bool,
        ty: Option<Ty>,
    },
    /// A function.
    Function {
        /// The number of its declaration.
        number: u32,
        /// Whether a definition stands so far.
        is_done: bool,
        result: Option<Ty>,
        /// Its parameters, which are not known while they are read.
        params: Option<List<Option<Ty>>>,
    },
}

/// The names of one scope, and its tags with the numbers of their structs.
#[derive(Drop)]
pub struct Scope {
    pub names: Table<Entry>,
    pub tags: Table<u32>,
}

/// A scope without names. It takes no memory.
pub(crate) fn no_names(alloc: Global) -> Scope
    ensures { scope_view result ≡ rule.no_names }
{
    Scope {
        names: Table::new(alloc),
        tags: Table::new(alloc),
    }
}
