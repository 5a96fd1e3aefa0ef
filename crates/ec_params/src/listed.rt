//! The members of structs, found by their names.

ghost use Rattle.std.specs.Prelude.{◌≡◌, [], IfOk, OnOk, map, option_map, option_and_then, slice_get};
ghost use Rattle.std.specs.Option.{option_copied};
ghost use Rattle.ec_ctypes.specs.views.Types.{ty_view, member_view, struct_view, structs_view};
ghost use Rattle.ec_host_defs.specs.Programs.{member_among};
ghost use Rattle.ec_params.specs.Listed as spec;
ghost use Rattle.ec_typing_defs.specs.Tables.{find};

use crate::scene::sum;
use ec_base::{List, Name, OutOfMemory};
use ec_ctypes::{StructDef, Ty};
use ec_scopes::Table;
use std::alloc::Global;

/// Notes the member at this place, unless there is one of its name.
fn note_member(
    alloc: Global,
    table: &mut Table<usize>,
    at: usize,
    name: &Name,
) -> Result<(), OutOfMemory>
    ensures { OnOk result (table.new ≡ spec.with_member at table.old name.now) }
{
    if table.get(name.as_slice()).is_none() {
        table.put(alloc, name.as_slice(), at)?;
    }
    Ok(())
}

/// The places of these members by their names.
fn places_among(alloc: Global, members: &[(Name, Ty)]) -> Result<Table<usize>, OutOfMemory>
    ensures { IfOk result (λ table. table ≡ spec.with_members 0 [] (map member_view members.now)) }
{
    let mut table = Table::new(alloc);
    let mut at = 0;
    for member in members {
        note_member(alloc, &mut table, at, &member.0)?;
        at = sum(at, 1)?;
    }
    Ok(table)
}

/// For each struct the places of its members by their names.
pub(crate) fn tables_of(
    alloc: Global,
    definitions: &[StructDef],
) -> Result<List<Table<usize>>, OutOfMemory>
    ensures { IfOk result (λ tables. tables
        ≡ map spec.places_of (structs_view definitions.now)) }
{
    let mut tables = List::new(alloc);
    for definition in definitions {
        let table = places_among(alloc, definition.members.as_slice())?;
        tables.push(table)?;
    }
    Ok(tables)
}

/// The type of the member at this place.
fn type_at(members: &[(Name, Ty)], at: Option<usize>) -> Option<&Ty>
    ensures { option_map ty_view (option_copied result)
        ≡ option_and_then (λ k. option_map (λ m. m.1)
        (slice_get (map member_view members.now) k)) at }
{
    match at {
        Some(place) => match members.get(place) {
            Some(member) => Some(&member.1),
            None => None,
        },
        None => None,
    }
}

/// The place of the first member of this name.
fn place_in(table: &Table<usize>, name: &Name) -> Option<usize>
    ensures { result ≡ find name.now table.now }
{
    match table.get(name.as_slice()) {
        Some(place) => Some(*place),
        None => None,
    }
}

/// The struct of this number.
fn definition_at(definitions: &[StructDef], id: u32) -> Option<&StructDef>
    ensures { option_copied result ≡ slice_get definitions.now id }
{
    definitions.get(id as usize)
}

/// The table of the struct of this number.
fn table_at(tables: &[Table<usize>], id: u32) -> Option<&Table<usize>>
    ensures { option_copied result ≡ slice_get tables.now id }
{
    tables.get(id as usize)
}

/// The type of the member of this name in the struct of this number.
pub(crate) fn member_in<'a>(
    definitions: &'a [StructDef],
    tables: &[Table<usize>],
    id: u32,
    name: &Name,
) -> Option<&'a Ty>
    requires { tables.now ≡ map spec.places_of (structs_view definitions.now) }
    ensures { option_map ty_view (option_copied result)
        ≡ option_and_then (λ d. member_among name.now d.members)
        (slice_get (structs_view definitions.now) id) }
{
    match definition_at(definitions, id) {
        Some(definition) => match table_at(tables, id) {
            Some(table) => type_at(definition.members.as_slice(), place_in(table, name)),
            None => None,
        },
        None => None,
    }
}
