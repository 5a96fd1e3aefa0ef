//! The leaves that a host stands for.

ghost use Rattle.std.specs.Prelude.{◌≡◌, [], ◌∷◌, map, IfOk, option_map};
ghost use Rattle.ec_ctypes.specs.views.Types.{ty_view, structs_view};
ghost use Rattle.ec_host_defs.specs.Elements.{is_element, plain_struct};
ghost use Rattle.ec_host_defs.specs.Leaves as spec;
ghost use Rattle.ec_leaves.specs.Cases.{one_leaves, many_leaves, elements_by, array_by, other_by, leaves_by};
ghost use Rattle.ec_leaves.specs.Seen.{leaf_view};

use crate::elements::{is_element, plain_struct};
use crate::going::struct_leaves;
use crate::parts::{Frame, Leaf};
use ec_base::{List, OutOfMemory};
use ec_ctypes::{Structs, Ty, copy_ty};
use std::alloc::Global;

/// One leaf, which is the host itself: elements of this type, so many.
fn one_leaf(alloc: Global, whole: &Ty, element: &Ty, count: u64) -> Result<List<Leaf>, OutOfMemory>
    ensures { IfOk result (λ leaves. map leaf_view leaves
        ≡ spec.own_leaf (ty_view whole.now) (ty_view element.now) count ∷ []) }
{
    let leaf = Leaf {
        in_first: false,
        path: List::new(alloc),
        whole: copy_ty(alloc, whole)?,
        element: copy_ty(alloc, element)?,
        count,
        apart: copy_ty(alloc, element)?,
    };
    let mut leaves = List::new(alloc);
    leaves.push(leaf)?;
    Ok(leaves)
}

/// Those of a struct that stands for its members, if there is one.
fn plain_leaves(
    alloc: Global,
    structs: &Structs,
    ty: &Ty,
) -> Result<Option<List<Leaf>>, OutOfMemory>
    ensures { IfOk result (λ found. option_map (map leaf_view) found
        ≡ one_leaves (structs_view structs.now)
        (plain_struct (structs_view structs.now) (ty_view ty.now))) }
{
    match plain_struct(structs, ty) {
        Some(id) => struct_leaves(alloc, structs, Frame::Single, id),
        None => Ok(None),
    }
}

/// Those of an array of structs, if they stand for their members.
fn many_leaves(
    alloc: Global,
    structs: &Structs,
    of: &Ty,
    count: u64,
) -> Result<Option<List<Leaf>>, OutOfMemory>
    ensures { IfOk result (λ found. option_map (map leaf_view) found
        ≡ many_leaves (structs_view structs.now) count
        (plain_struct (structs_view structs.now) (ty_view of.now))) }
{
    match plain_struct(structs, of) {
        Some(id) => struct_leaves(alloc, structs, Frame::Many(id, count), id),
        None => Ok(None),
    }
}

/// Whether this is a pointer.
fn is_pointer(ty: &Ty) -> bool
    ensures { result ≡ spec.is_pointer (ty_view ty.now) }
{
    match ty {
        Ty::Ptr(_) => true,
        Ty::Void => false,
        Ty::Bool => false,
        Ty::Char => false,
        Ty::UChar => false,
        Ty::Short => false,
        Ty::UShort => false,
        Ty::Int => false,
        Ty::UInt => false,
        Ty::Long => false,
        Ty::ULong => false,
        Ty::LLong => false,
        Ty::ULLong => false,
        Ty::Array(_, _) => false,
        Ty::Struct(_) => false,
    }
}

/// An array of elements, but none of pointers.
fn elements_leaves(
    alloc: Global,
    whole: &Ty,
    of: &Ty,
    count: u64,
) -> Result<Option<List<Leaf>>, OutOfMemory>
    ensures { IfOk result (λ found. option_map (map leaf_view) found
        ≡ elements_by (spec.is_pointer (ty_view of.now))
        (ty_view whole.now) (ty_view of.now) count) }
{
    if is_pointer(of) {
        return Ok(None);
    }
    Ok(Some(one_leaf(alloc, whole, of, count)?))
}

/// The leaves of an array.
fn array_leaves(
    alloc: Global,
    structs: &Structs,
    whole: &Ty,
    of: &Ty,
    count: u64,
) -> Result<Option<List<Leaf>>, OutOfMemory>
    ensures { IfOk result (λ found. option_map (map leaf_view) found
        ≡ array_by (is_element (structs_view structs.now) (ty_view of.now))
        (structs_view structs.now) (ty_view whole.now) (ty_view of.now) count) }
{
    if is_element(structs, of) {
        elements_leaves(alloc, whole, of, count)
    } else {
        many_leaves(alloc, structs, of, count)
    }
}

/// The leaves of what is no element.
fn other_leaves(
    alloc: Global,
    structs: &Structs,
    ty: &Ty,
) -> Result<Option<List<Leaf>>, OutOfMemory>
    ensures { IfOk result (λ found. option_map (map leaf_view) found
        ≡ other_by (structs_view structs.now) (ty_view ty.now)) }
{
    match ty {
        Ty::Array(of, count) => array_leaves(alloc, structs, ty, of.get(), *count),
        Ty::Struct(_) => plain_leaves(alloc, structs, ty),
        Ty::Void => Ok(None),
        Ty::Bool => Ok(None),
        Ty::Char => Ok(None),
        Ty::UChar => Ok(None),
        Ty::Short => Ok(None),
        Ty::UShort => Ok(None),
        Ty::Int => Ok(None),
        Ty::UInt => Ok(None),
        Ty::Long => Ok(None),
        Ty::ULong => Ok(None),
        Ty::LLong => Ok(None),
        Ty::ULLong => Ok(None),
        Ty::Ptr(_) => Ok(None),
    }
}

/// The leaves of an element, or of what is none.
fn leaves_by(alloc: Global, structs: &Structs, ty: &Ty) -> Result<Option<List<Leaf>>, OutOfMemory>
    ensures { IfOk result (λ found. option_map (map leaf_view) found
        ≡ leaves_by (is_element (structs_view structs.now) (ty_view ty.now))
        (structs_view structs.now) (ty_view ty.now)) }
{
    if is_element(structs, ty) {
        Ok(Some(one_leaf(alloc, ty, ty, 1)?))
    } else {
        other_leaves(alloc, structs, ty)
    }
}

/// The leaves of a host of this type: itself, or the members of its struct in order, inner structs too (PostgreSQL manual,
/// "Host Variables with Nonprimitive Types"). `None` comes exactly where a type is that of no host.
pub fn leaves(alloc: Global, structs: &Structs, ty: &Ty) -> Result<Option<List<Leaf>>, OutOfMemory>
    ensures { IfOk result (λ found. option_map (map leaf_view) found
        ≡ spec.leaves (structs_view structs.now) (ty_view ty.now)) }
{
    let found = leaves_by(alloc, structs, ty)?;
    Ok(found)
}
