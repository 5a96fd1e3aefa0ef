//! The structs of a program as they were met.

ghost use Rattle.std.specs.Prelude.{◌≡◌, ◌++◌, map, option_map, slice_get, IfOk, OnOk};
ghost use Rattle.std.specs.Option.{option_to_list};
ghost use Rattle.ec_ctypes.specs.views.Types.{member_view, struct_view, structs_view};
ghost use Rattle.ec_scopes.specs.Entries.{type_view, named_view};
ghost use Rattle.ec_scopes.specs.Structs.{members_view, opened};
ghost use Rattle.ec_check.specs.typed.Orders.{plain_members, members_in, plain_struct};
ghost use Rattle.ec_check.specs.Members.{plain_member};

use crate::objects::type_or_void;
use ec_base::{List, Name, OutOfMemory};
use ec_ctypes::{StructDef, Ty};
use ec_rules::copy_type;
use ec_scopes::{Members, StructRow, Table};
use std::alloc::Global;

// A member with its type.
fn member(alloc: Global, name: &[u8], ty: &Option<Ty>) -> Result<(Name, Ty), OutOfMemory>
    ensures { IfOk result (λ m. member_view m ≡ plain_member (name.now, type_view ty.now)) }
{
    let name = Name::from_slice(alloc, name)?;
    let copy = copy_type(alloc, ty)?;
    Ok((name, type_or_void(copy)))
}

// The member of this number, if there is one.
fn member_at(
    alloc: Global,
    members: &Table<Option<Ty>>,
    i: usize,
) -> Result<Option<(Name, Ty)>, OutOfMemory>
    ensures { IfOk result (λ m. option_map member_view m
        ≡ option_map plain_member (slice_get (named_view type_view members.now) i)) }
{
    match members.name_at(i) {
        None => Ok(None),
        Some(name) => match members.value_at(i) {
            None => Ok(None),
            Some(ty) => Ok(Some(member(alloc, name, ty)?)),
        },
    }
}

// Adds the member of this number, if there is one.
fn push_member(
    alloc: Global,
    members: &Table<Option<Ty>>,
    i: usize,
    all: &mut List<(Name, Ty)>,
) -> Result<(), OutOfMemory>
    ensures { OnOk result (map member_view all.new ≡ map member_view all.old
        ++ map plain_member (option_to_list (slice_get (named_view type_view members.now) i))) }
{
    match member_at(alloc, members, i)? {
        Some(next) => all.push(next),
        None => Ok(()),
    }
}

// The members with their types; void stands for a type that is missing.
fn listed_members(
    alloc: Global,
    members: &Table<Option<Ty>>,
) -> Result<List<(Name, Ty)>, OutOfMemory>
    ensures { IfOk result (λ ms. map member_view ms
        ≡ plain_members (named_view type_view members.now)) }
{
    let mut all = List::new(alloc);
    for i in 0..members.len() {
        push_member(alloc, members, i, &mut all)?;
    }
    Ok(all)
}

// The members that a struct lists.
fn members_of(alloc: Global, members: &Members) -> Result<List<(Name, Ty)>, OutOfMemory>
    ensures { IfOk result (λ ms. map member_view ms ≡ members_in (members_view members.now)) }
{
    match members {
        Members::Unlisted => Ok(List::new(alloc)),
        Members::Begun => Ok(List::new(alloc)),
        Members::Listed(table) => {
            let table = table.get();
            listed_members(alloc, table)
        }
    }
}

fn copied_tag(tag: &Option<Name>) -> Result<Option<Name>, OutOfMemory>
    ensures { IfOk result (λ copy. copy ≡ tag.now) }
{
    match tag {
        Some(name) => Ok(Some(name.clone()?)),
        None => Ok(None),
    }
}

fn definition(alloc: Global, row: &StructRow) -> Result<StructDef, OutOfMemory>
    ensures { IfOk result (λ d. struct_view d ≡ plain_struct (opened row.now)) }
{
    let tag = copied_tag(&row.tag)?;
    let members = members_of(alloc, &row.members)?;
    Ok(StructDef {
        tag,
        varchar: row.varchar,
        members,
    })
}

/// The structs, each with the members that it lists.
pub fn definitions(alloc: Global, rows: &[StructRow]) -> Result<List<StructDef>, OutOfMemory>
    ensures { IfOk result (λ ds. structs_view ds ≡ map (λ r. plain_struct (opened r)) rows.now) }
{
    let mut all = List::with_capacity(alloc, rows.len())?;
    for row in rows {
        all.push(definition(alloc, row)?)?;
    }
    Ok(all)
}
