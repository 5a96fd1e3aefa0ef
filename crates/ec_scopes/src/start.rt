//! The state before a program is looked at: the structs of sqlca are there (PostgreSQL manual, "sqlca").

ghost use Rattle.std.specs.Prelude.{◌≡◌, [], ◌∷◌, IfOk, Some, None};
ghost use Rattle.ec_scopes.specs.Entries.{named_view, type_view};
ghost use Rattle.ec_scopes.specs.Seen.{notes_of, world_of};
ghost use Rattle.ec_scopes.specs.Structs.{infos};
ghost use Rattle.ec_scopes.specs.Starts.{fresh, message_members, first_members, area_members, sqlca_infos};
ghost use Rattle.ec_ctypes.specs.trees.Types.{array};
ghost use Rattle.ec_ctypes.specs.views.Types.{ty_view};

use crate::entries::no_names;
use crate::state::Checker;
use crate::structs::StructTable;
use crate::table::Table;
use crate::varchars::put_member;
use ec_base::{Boxed, List, OutOfMemory};
use ec_ctypes::Ty;
use std::alloc::Global;

/// An array type.
fn array(alloc: Global, of: Ty, count: u64) -> Result<Option<Ty>, OutOfMemory>
    ensures { IfOk result (λ t. type_view t ≡ Some (array (ty_view of) count)) }
{
    Ok(Some(Ty::Array(Boxed::new(alloc, of)?, count)))
}

/// The members of sqlerrm, the message of sqlca.
fn message_members(alloc: Global) -> Result<Table<Option<Ty>>, OutOfMemory>
    ensures { IfOk result (λ ms. named_view type_view ms ≡ message_members) }
{
    let mut members = Table::new(alloc);
    put_member(alloc, &mut members, b"sqlerrml".as_slice(), Some(Ty::Int))?;
    let text = array(alloc, Ty::Char, 150)?;
    put_member(alloc, &mut members, b"sqlerrmc".as_slice(), text)?;
    Ok(members)
}

/// The members of sqlca before its arrays of numbers.
fn first_members(alloc: Global) -> Result<Table<Option<Ty>>, OutOfMemory>
    ensures { IfOk result (λ ms. named_view type_view ms ≡ first_members) }
{
    let mut members = Table::new(alloc);
    let id = array(alloc, Ty::Char, 8)?;
    put_member(alloc, &mut members, b"sqlcaid".as_slice(), id)?;
    put_member(alloc, &mut members, b"sqlabc".as_slice(), Some(Ty::Long))?;
    put_member(alloc, &mut members, b"sqlcode".as_slice(), Some(Ty::Long))?;
    put_member(
        alloc,
        &mut members,
        b"sqlerrm".as_slice(),
        Some(Ty::Struct(0)),
    )?;
    Ok(members)
}

/// The members of sqlca.
fn area_members(alloc: Global) -> Result<Table<Option<Ty>>, OutOfMemory>
    ensures { IfOk result (λ ms. named_view type_view ms ≡ area_members) }
{
    let mut members = first_members(alloc)?;
    let program = array(alloc, Ty::Char, 8)?;
    put_member(alloc, &mut members, b"sqlerrp".as_slice(), program)?;
    let numbers = array(alloc, Ty::Long, 6)?;
    put_member(alloc, &mut members, b"sqlerrd".as_slice(), numbers)?;
    let warnings = array(alloc, Ty::Char, 8)?;
    put_member(alloc, &mut members, b"sqlwarn".as_slice(), warnings)?;
    let state = array(alloc, Ty::Char, 5)?;
    put_member(alloc, &mut members, b"sqlstate".as_slice(), state)?;
    Ok(members)
}

/// The structs of sqlca.
fn sqlca_structs(alloc: Global) -> Result<StructTable, OutOfMemory>
    ensures infos { IfOk result (λ s. infos s.0 s.1 ≡ sqlca_infos) }
    ensures closed { IfOk result (λ s. s.1 ≡ 0 ∷ 1 ∷ []) }
{
    let mut structs = StructTable::new(alloc);
    structs.push_closed(None, false, message_members(alloc)?)?;
    structs.push_closed(None, false, area_members(alloc)?)?;
    Ok(structs)
}

#[tactic(auto, unfolding(crate::specs::Seen::world_of, crate::specs::Seen::notes_of))]
impl Checker {
    /// The state before a program is looked at, which defines these functions.
    pub fn start(alloc: Global, written: bool, defined: Table<()>) -> Result<Checker, OutOfMemory>
        ensures world { IfOk result (λ checker. world_of checker ≡ fresh written defined) }
        ensures notes { IfOk result (λ checker. notes_of checker ≡ None) }
    {
        Ok(Checker {
            alloc,
            written,
            here: no_names(alloc),
            outer: List::new(alloc),
            structs: sqlca_structs(alloc)?,
            types: List::new(alloc),
            denoted: List::new(alloc),
            defined,
            labels: Table::new(alloc),
            places: 0,
            first: None,
        })
    }
}
