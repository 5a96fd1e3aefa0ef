//! Types and structs with the numbers of a new order.

ghost use Rattle.std.specs.Prelude.{◌≡◌, map, option_map, slice_get, IfOk};
ghost use Rattle.std.specs.Option.{option_copied};
ghost use Rattle.ec_ctypes.specs.views.Types.{ty_view, member_view, struct_view, structs_view};
ghost use Rattle.ec_typing_defs.specs.Answers as spec;
ghost use Rattle.ec_typing_defs.specs.Worlds.{World};
ghost use Rattle.ec_check.specs.typed.Orders.{IsOrder, renumbered_member, renumbered_struct, renumbered_at, names_view, Stands, IsNumbered};

use crate::typed::order::{Order, order_of};
use ec_base::{Boxed, List, Name, OutOfMemory};
use ec_ctypes::{StructDef, Structs, Ty};
use std::alloc::Global;

// The type with the places of its structs as their numbers.
fn renumbered(alloc: Global, order: &Order, ty: &Ty) -> Result<Ty, OutOfMemory>
    requires { IsOrder order.now.numbers order.now.places }
    ensures { IfOk result (λ t. ty_view t ≡ spec.renumbered order.now.numbers (ty_view ty.now)) }
{
    Ok(match ty {
        Ty::Void => Ty::Void,
        Ty::Bool => Ty::Bool,
        Ty::Char => Ty::Char,
        Ty::UChar => Ty::UChar,
        Ty::Short => Ty::Short,
        Ty::UShort => Ty::UShort,
        Ty::Int => Ty::Int,
        Ty::UInt => Ty::UInt,
        Ty::Long => Ty::Long,
        Ty::ULong => Ty::ULong,
        Ty::LLong => Ty::LLong,
        Ty::ULLong => Ty::ULLong,
        Ty::Ptr(to) => Ty::Ptr(Boxed::new(alloc, renumbered(alloc, order, to.get())?)?),
        Ty::Array(of, n) => Ty::Array(Boxed::new(alloc, renumbered(alloc, order, of.get())?)?, *n),
        Ty::Struct(k) => Ty::Struct(order.place(*k)),
    })
}

fn renumbered_members(
    alloc: Global,
    order: &Order,
    members: &[(Name, Ty)],
) -> Result<List<(Name, Ty)>, OutOfMemory>
    requires { IsOrder order.now.numbers order.now.places }
    ensures { IfOk result (λ new. map member_view new
        ≡ map (renumbered_member order.now.numbers) (map member_view members.now)) }
{
    let mut new = List::with_capacity(alloc, members.len())?;
    for (name, ty) in members {
        let name = name.clone()?;
        new.push((name, renumbered(alloc, order, ty)?))?;
    }
    Ok(new)
}

fn copied_tag(tag: &Option<Name>) -> Result<Option<Name>, OutOfMemory>
    ensures { IfOk result (λ copy. copy ≡ tag.now) }
{
    match tag {
        Some(name) => Ok(Some(name.clone()?)),
        None => Ok(None),
    }
}

// The struct, or one of which nothing is known.
fn renumbered_definition(
    alloc: Global,
    order: &Order,
    definition: Option<&StructDef>,
) -> Result<StructDef, OutOfMemory>
    requires { IsOrder order.now.numbers order.now.places }
    ensures { IfOk result (λ new. struct_view new
        ≡ renumbered_struct order.now.numbers
        (option_map struct_view (option_copied definition.entry))) }
{
    match definition {
        Some(definition) => {
            let tag = copied_tag(&definition.tag)?;
            let members = renumbered_members(alloc, order, definition.members.as_slice())?;
            Ok(StructDef {
                tag,
                varchar: definition.varchar,
                members,
            })
        }
        None => Ok(StructDef {
            tag: None,
            varchar: false,
            members: List::new(alloc),
        }),
    }
}

fn definition_at(structs: &[StructDef], k: u32) -> Option<&StructDef>
    ensures { option_copied result ≡ slice_get structs.now k }
{
    structs.get(k as usize)
}

// The struct of this number.
#[tactic(auto, using(crate::proofs::typed_lemmas::Worlds::one_alike))]
fn renumbered_one(
    alloc: Global,
    order: &Order,
    structs: &[StructDef],
    k: u32,
) -> Result<StructDef, OutOfMemory>
    requires { IsOrder order.now.numbers order.now.places }
    ensures { IfOk result (λ new. struct_view new
        ≡ renumbered_at order.now.numbers (structs_view structs.now) k) }
{
    renumbered_definition(alloc, order, definition_at(structs, k))
}

// The structs in their new order.
fn ordered(alloc: Global, order: &Order, structs: &[StructDef]) -> Result<Structs, OutOfMemory>
    requires { IsOrder order.now.numbers order.now.places }
    ensures { IfOk result (λ new. structs_view new
        ≡ map (renumbered_at order.now.numbers (structs_view structs.now)) order.now.numbers) }
{
    let mut new = Structs::new(alloc);
    for k in order.numbers.as_slice() {
        new.push(renumbered_one(alloc, order, structs, *k)?)?;
    }
    Ok(new)
}

// The types with their numbers.
fn names(alloc: Global, order: &Order, types: &[Ty]) -> Result<List<(u32, Ty)>, OutOfMemory>
    requires { IsOrder order.now.numbers order.now.places }
    ensures { IfOk result (λ names. names_view names
        ≡ spec.numbered_from 0 order.now.numbers (map ty_view types.now)) }
{
    if types.len() > u32::MAX as usize {
        // Out of reach, which isn't proved: a source has fewer declarations than tokens, so at most 2^22.
        return Err(OutOfMemory);
    }
    let mut names = List::with_capacity(alloc, types.len())?;
    for (k, ty) in types.iter().enumerate() {
        names.push((k as u32, renumbered(alloc, order, ty)?))?;
    }
    Ok(names)
}

/// The structs and the types of the declarations of a program, by their numbers.
#[derive(Drop)]
pub struct Numbered {
    pub structs: Structs,
    pub names: List<(u32, Ty)>,
}

/// The structs of a world by the places where their members close, and the types of its declarations, with these numbers.
/// The structs and the types are given as they were met, and `closed` has the numbers of the closed ones. It takes time
/// and memory linear in all of them. The one error is want of memory.
pub fn make_numbered(
    alloc: Global,
    structs: &[StructDef],
    closed: &[u32],
    types: &[Ty],
) -> Result<Numbered, OutOfMemory>
    ensures { (w : World) → Stands structs.now closed.now types.now w
        → IfOk result (λ n. IsNumbered n.structs n.names w) }
{
    let order = order_of(alloc, closed, structs.len())?;
    let structs = ordered(alloc, &order, structs)?;
    let names = names(alloc, &order, types)?;
    Ok(Numbered { structs, names })
}
