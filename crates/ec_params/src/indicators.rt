//! The types that indicators may have.
#![tactic(auto, using(crate::proofs::Lowest::lowest))]

ghost use Rattle.std.specs.Prelude.{◌≡◌, ◌&&◌, ◌==◌, IfOk, map, option_map, Some, None};
ghost use Rattle.std.specs.List.{list_all};
ghost use Rattle.std.specs.Option.{option_copied};
ghost use Rattle.ec_ctypes.specs.views.Types.{ty_view, structs_view};
ghost use Rattle.ec_host_defs.specs.Elements.{is_element, is_indicator, plain_struct};
ghost use Rattle.ec_host_defs.specs.Faults as spec;
ghost use Rattle.ec_host_defs.specs.Leaves as hosts;
ghost use Rattle.ec_leaves.specs.Seen.{leaf_view};
ghost use Rattle.ec_params.specs.Least.{least};
ghost use Rattle.ec_params.specs.Shapes.{role_view, plain_shape, faults_by, faults_of_shape};

use crate::known::Known;
use crate::least::{fault_unless, lower_of, nothing, only};
use crate::tallies::{are_indicators, same_count};
use crate::values::Role;
use ec_base::{FaultKind, OutOfMemory};
use ec_ctypes::{Structs, Ty};
use ec_leaves::{Leaf, is_element, is_indicator, plain_struct};
use std::alloc::Global;

/// What a host of a type is.
#[derive(Clone, Copy, Debug)]
pub(crate) enum Shape {
    /// One element.
    One,
    /// An array of so many, but none of pointers.
    Elements(u64),
    /// A struct.
    Single,
    /// An array of so many structs.
    Many(u64),
}

/// Whether all leaves are of an indicator's type.
pub(crate) fn all_indicators(leaves: &[Leaf]) -> bool
    ensures { result ≡ list_all (λ l. is_indicator l.element) (map leaf_view leaves.now) }
{
    for leaf in leaves {
        if !is_indicator(&leaf.element) {
            return false;
        }
    }
    true
}

/// Whether this is an array of at least so many indicators.
fn is_indicator_array(count: u64, ty: &Ty) -> bool
    ensures { result ≡ spec.is_indicator_array count (ty_view ty.now) }
{
    match ty {
        Ty::Array(of, length) => is_indicator(of.get()) && count <= *length,
        Ty::Void => false,
        Ty::Bool => false,
        Ty::Char => false,
        Ty::UChar => false,
        Ty::Short => false,
        Ty::UShort => false,
        Ty::Int => false,
        Ty::UInt => false,
        Ty::Long => false,
        Ty::ULong => false,
        Ty::LLong => false,
        Ty::ULLong => false,
        Ty::Ptr(_) => false,
        Ty::Struct(_) => false,
    }
}

/// Whether this is a pointer.
pub(crate) fn is_pointer(ty: &Ty) -> bool
    ensures { result ≡ hosts.is_pointer (ty_view ty.now) }
{
    match ty {
        Ty::Ptr(_) => true,
        Ty::Void => false,
        Ty::Bool => false,
        Ty::Char => false,
        Ty::UChar => false,
        Ty::Short => false,
        Ty::UShort => false,
        Ty::Int => false,
        Ty::UInt => false,
        Ty::Long => false,
        Ty::ULong => false,
        Ty::LLong => false,
        Ty::ULLong => false,
        Ty::Array(_, _) => false,
        Ty::Struct(_) => false,
    }
}

/// The shape of an array of so many.
fn array_shape(structs: &Structs, of: &Ty, count: u64) -> Option<Shape>
    ensures { result ≡ option_map plain_shape
        (hosts.array_shape (structs_view structs.now) (ty_view of.now) count) }
{
    if is_element(structs, of) {
        if is_pointer(of) {
            None
        } else {
            Some(Shape::Elements(count))
        }
    } else {
        match plain_struct(structs, of) {
            Some(_) => Some(Shape::Many(count)),
            None => None,
        }
    }
}

/// The shape of what is no element.
fn other_shape(structs: &Structs, ty: &Ty) -> Option<Shape>
    ensures { result ≡ option_map plain_shape
        (hosts.other_shape (structs_view structs.now) (ty_view ty.now)) }
{
    match ty {
        Ty::Array(of, count) => array_shape(structs, of.get(), *count),
        Ty::Struct(_) => match plain_struct(structs, ty) {
            Some(_) => Some(Shape::Single),
            None => None,
        },
        Ty::Void => None,
        Ty::Bool => None,
        Ty::Char => None,
        Ty::UChar => None,
        Ty::Short => None,
        Ty::UShort => None,
        Ty::Int => None,
        Ty::UInt => None,
        Ty::Long => None,
        Ty::ULong => None,
        Ty::LLong => None,
        Ty::ULLong => None,
        Ty::Ptr(_) => None,
    }
}

/// What a host of this type is, if it is one.
fn shape_of_host(structs: &Structs, ty: &Ty) -> Option<Shape>
    ensures { result ≡ option_map plain_shape
        (hosts.shape_of_host (structs_view structs.now) (ty_view ty.now)) }
{
    if is_element(structs, ty) {
        Some(Shape::One)
    } else {
        other_shape(structs, ty)
    }
}

/// The first fault of an indicator that is a struct or an array of structs, as its host is, of the same number or not.
fn struct_fault(
    alloc: Global,
    structs: &Known<'_>,
    ty: &Ty,
    indicator: &Ty,
    same: bool,
) -> Result<Option<FaultKind>, OutOfMemory>
    ensures { IfOk result (λ fault. fault ≡ least (spec.struct_faults (structs_view structs.now)
        (ty_view ty.now) (ty_view indicator.now) same)) }
{
    let own = structs.tally(alloc, ty)?;
    let inner = structs.tally(alloc, indicator)?;
    let as_many = same_count(own, inner)?;
    let fault = fault_unless(are_indicators(inner), FaultKind::F23);
    let count = fault_unless(same && as_many, FaultKind::F25);
    Ok(lower_of(fault, count))
}

/// The first fault of an indicator, by its shape and that of its host.
fn shape_fault(
    alloc: Global,
    structs: &Known<'_>,
    ty: &Ty,
    indicator: &Ty,
    shape: Shape,
    other: Option<Shape>,
) -> Result<Option<FaultKind>, OutOfMemory>
    ensures { IfOk result (λ fault. fault ≡ least (faults_by (structs_view structs.now)
        (ty_view ty.now) (ty_view indicator.now) shape other)) }
{
    match shape {
        Shape::One => Ok(fault_unless(is_indicator(indicator), FaultKind::F23)),
        Shape::Elements(count) => Ok(fault_unless(
            is_indicator_array(count, indicator),
            FaultKind::F23,
        )),
        Shape::Single => match other {
            Some(Shape::Single) => struct_fault(alloc, structs, ty, indicator, true),
            Some(Shape::One) => Ok(only(FaultKind::F23)),
            Some(Shape::Elements(_)) => Ok(only(FaultKind::F23)),
            Some(Shape::Many(_)) => Ok(only(FaultKind::F23)),
            None => Ok(only(FaultKind::F23)),
        },
        Shape::Many(count) => match other {
            Some(Shape::Many(length)) => {
                struct_fault(alloc, structs, ty, indicator, count == length)
            }
            Some(Shape::One) => Ok(only(FaultKind::F23)),
            Some(Shape::Elements(_)) => Ok(only(FaultKind::F23)),
            Some(Shape::Single) => Ok(only(FaultKind::F23)),
            None => Ok(only(FaultKind::F23)),
        },
    }
}

/// The first fault of an indicator, by what is kept of both shapes.
fn typed_fault(
    alloc: Global,
    structs: &Known<'_>,
    ty: &Ty,
    indicator: &Ty,
) -> Result<Option<FaultKind>, OutOfMemory>
    ensures { IfOk result (λ fault. fault ≡ least (faults_of_shape (structs_view structs.now)
        (ty_view ty.now) (ty_view indicator.now) (option_map plain_shape (hosts.shape_of_host
        (structs_view structs.now) (ty_view ty.now))) (option_map plain_shape (hosts.shape_of_host
        (structs_view structs.now) (ty_view indicator.now))))) }
{
    match shape_of_host(structs.all(), ty) {
        Some(shape) => {
            let other = shape_of_host(structs.all(), indicator);
            shape_fault(alloc, structs, ty, indicator, shape, other)
        }
        None => Ok(nothing()),
    }
}

/// The first fault of an indicator of this type beside a host of that type.
fn indicator_fault(
    alloc: Global,
    structs: &Known<'_>,
    ty: &Ty,
    indicator: &Ty,
) -> Result<Option<FaultKind>, OutOfMemory>
    ensures { IfOk result (λ fault. fault ≡ least (spec.typed_faults (structs_view structs.now)
        (ty_view ty.now) (ty_view indicator.now))) }
{
    let fault = typed_fault(alloc, structs, ty, indicator)?;
    Ok(fault)
}

/// Whether a host that is for this may have an indicator.
pub(crate) fn may_have_indicator(role: Role) -> bool
    ensures { result ≡ spec.may_have_indicator (role_view role) }
{
    match role {
        Role::Input | Role::Output | Role::Number => true,
        Role::Text | Role::Item => false,
    }
}

/// The first fault of the type of an indicator: F23 where there is none or it doesn't fit that of the host, F25 where
/// members or elements differ in number.
pub(crate) fn indicator_type_fault(
    alloc: Global,
    structs: &Known<'_>,
    ty: Option<&Ty>,
    indicator: Option<&Ty>,
) -> Result<Option<FaultKind>, OutOfMemory>
    ensures { IfOk result (λ fault. fault
        ≡ least (spec.indicator_type_faults (structs_view structs.now)
        (option_map ty_view (option_copied ty.entry))
        (option_map ty_view (option_copied indicator.entry)))) }
{
    match indicator {
        Some(inner) => match ty {
            Some(ty) => indicator_fault(alloc, structs, ty, inner),
            None => Ok(nothing()),
        },
        None => Ok(only(FaultKind::F23)),
    }
}
