//! The structs of a program, with what is found out of them once.

ghost use Rattle.std.specs.Prelude.{◌≡◌, IfOk, option_map, option_and_then, slice_get};
ghost use Rattle.std.specs.Option.{option_copied};
ghost use Rattle.ec_ctypes.specs.views.Types.{ty_view, structs_view};
ghost use Rattle.ec_host_defs.specs.Leaves.{leaves};
ghost use Rattle.ec_host_defs.specs.Programs.{member_among};
ghost use Rattle.ec_params.specs.Tallies as spec;

use crate::listed::{member_in, tables_of};
use crate::tallies::{Tally, known_tally, leaves_tally, tallies_of};
use ec_base::{List, Name, OutOfMemory};
use ec_ctypes::{Structs, Ty};
use ec_leaves::leaves;
use ec_scopes::Table;
use std::alloc::Global;
use std::marker::Model;

/// The structs of a program, whose members are found at once, and whose leaves are counted. Contracts see the list of the
/// structs.
#[derive(Drop)]
pub(crate) struct Known<'a> {
    structs: &'a Structs,
    /// For each, the places of its members by their names.
    tables: List<Table<usize>>,
    /// For each, what is known of its leaves, up to the first that holds one of a higher number. The checks make no such.
    tallies: List<Option<Tally>>,
}

impl<'a> Model for Known<'a> {
    ghost use Rattle.std.specs.Prelude.{List as Sequence};
    ghost use Rattle.ec_ctypes.specs.declared.types.ty.StructDef.{StructDef as Definition};
    ghost use Rattle.std.specs.Coded.{codes};
    ghost use Rattle.ec_ctypes.specs.contracts.types.ty.Ty as ty;
    ghost use Rattle.ec_params.specs.Kept.{IsKept};

    ghost Value = { Sequence Definition };

    ghost coded = { Prim.hlevel (codes, ty.the_row.coded) };

    ghost view = { λ it. it.structs.now };

    ghost invariant = { λ it. IsKept it.structs.now it.tables it.tallies };
}

impl<'a> Known<'a> {
    /// What is found out of these structs, in time and memory that grow as their members do.
    pub(crate) fn new(alloc: Global, structs: &'a Structs) -> Result<Known<'a>, OutOfMemory>
        ensures { IfOk result (λ known. known ≡ structs.now) }
    {
        let tables = tables_of(alloc, structs.as_slice())?;
        let tallies = tallies_of(alloc, structs, structs.as_slice())?;
        Ok(Known {
            structs,
            tables,
            tallies,
        })
    }

    /// The structs alone.
    pub(crate) fn all(&self) -> &Structs
        ensures { result.now ≡ self.now }
    {
        self.structs
    }

    /// The type of the member of this name in the struct of this number.
    pub(crate) fn member(&self, id: u32, name: &Name) -> Option<&Ty>
        ensures { option_map ty_view (option_copied result)
            ≡ option_and_then (λ d. member_among name.now d.members)
            (slice_get (structs_view self.now) id) }
    {
        member_in(self.structs.as_slice(), self.tables.as_slice(), id, name)
    }

    /// What is known of the leaves of a host of this type, without making them. `None` comes exactly where it has none.
    pub(crate) fn tally(&self, alloc: Global, ty: &Ty) -> Result<Option<Tally>, OutOfMemory>
        ensures { IfOk result (λ tally. tally
            ≡ spec.leaves_tally (leaves (structs_view self.now) (ty_view ty.now))) }
    {
        match known_tally(self.structs, self.tallies.as_slice(), ty) {
            Some(tally) => Ok(tally),
            None => {
                let found = leaves(alloc, self.structs, ty)?;
                Ok(leaves_tally(&found))
            }
        }
    }
}
